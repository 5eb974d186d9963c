// A line for each group of cases.
pub fn say(name: &[u8], right: bool) {
    io::write_all(1, name);
    if right {
        io::write_all(1, b" ok\n");
    } else {
        io::write_all(1, b" FAILED\n");
    }
}

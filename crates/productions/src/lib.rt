// What names, texts, comments, processing instructions, prefixes and URIs may be. It sees no tree.
#![tactic(auto)]

pub mod checks; // checks.rt: the checks

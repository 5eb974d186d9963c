// What is proved of the document and of the plain tree, and the claim about every list of calls. It has no code.
#![tactic(auto)]

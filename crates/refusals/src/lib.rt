// The refusals of document 01's table, an operation's reply, and both as a C caller gets them.
#![tactic(auto)]

pub mod refusal;
pub mod reply;
pub mod report;

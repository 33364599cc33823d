// The log as C links it: liftlog's calls under their own names, by the C calling convention, and nothing else. What each does, and
// what it promises, stands in liftlog.

#![tactic(auto)]

mod begin;
mod calls;
mod show;

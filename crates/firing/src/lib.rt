// The definitions of the firing and of one commit, in specs/. The crates `firing_actions`, `firing_rules` and `firing_commits`
// compute them from the tables of a deck.
#![tactic(auto)]

// The conversion of old decks: the definitions of specs/. The crate `conversion_call` computes it.
#![tactic(auto)]

// The definitions of the charge of updates and rules, in specs/. The crate `charge_tables` computes charges from the tables of a deck.
#![tactic(auto)]

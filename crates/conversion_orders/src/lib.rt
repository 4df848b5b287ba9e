// What the conversion of an old deck keeps, in specs/, with the laws in proofs/.
#![tactic(auto)]

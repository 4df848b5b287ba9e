// Lists of calls. The definitions are in specs/.
#![tactic(auto)]

//! Worked values of what code means and when it is typed, computed on the definitions. There is no code here.
#![tactic(auto)]

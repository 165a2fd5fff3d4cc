// Lists and rows of values: there is nothing to run here. The crates above cite its definitions and laws.
#![tactic(auto)]

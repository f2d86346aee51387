// The rules of document 01 stand in specs/. There is no code here.
#![tactic(auto)]

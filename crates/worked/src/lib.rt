// The networks that document 01 works out by hand, as one theorem about the definitions of lfa, in specs/. There is no code here.
#![tactic(auto)]

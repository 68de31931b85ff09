// The meaning of Point 6, "Taking in OSPF": definitions and laws, in specs/. There is no code here.
#![tactic(auto)]

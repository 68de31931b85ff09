// Runs of Router-LSAs with what the import answers to them, as one theorem about the definitions of ospf, in specs/. There is no code here.
#![tactic(auto)]

// What the LSAs of a run say, read in bounded memory: the routers and the networks and masks in order, each by going over the run once more,
// and the metrics of one LSA. Preparation of Point 6, which no call uses yet. A run and how many LSAs it has stay two parameters: each clause
// names both, as the definitions of `ospf` do.
#![tactic(auto)]

mod gather;
mod link;
mod name;
mod router;

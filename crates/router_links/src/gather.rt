// The links of the network, put into columns: for each two routers the metrics that their LSAs have for each other.
ghost use Rattle.std.specs.Prelude.{◌≡◌, List, ◌++◌, ◌≤◌, ◌<◌};
ghost use Rattle.lfa.specs.Network as lfa;
ghost use Rattle.ospf.specs.Lsa.{links_field};
ghost use Rattle.ospf.specs.Run.{WholeRun, lsas_of};
ghost use Rattle.ospf.specs.Network.{links_up, ids_of, network_from};
ghost use Rattle.router_links.specs.Read.{metric_to, stub_least, RoutersHeld};
ghost use Rattle.router_links.specs.Gather.{lsa_from, StandsAt, link_if, LinksHeld};

use super::link::{lsa_at, metric_to, stub_least};
use super::router::Routers;
use metric::columns::Links;

// The metric of the point-to-point link to a router in the LSA that begins at `at`, or 0.
pub(crate) fn lsa_metric(run: &[u8], at: usize, to: u32) -> u16
    requires { StandsAt run.now at }
    ensures { result ≡ metric_to (lsa_from run.now at) (links_field (lsa_from run.now at)) to }
{
    let (l, links) = lsa_at(run, at);
    metric_to(l, links, to)
}

// The least metric of the stub links of a network and mask in the LSA that begins at `at`, or 65,536.
pub(crate) fn lsa_stub(run: &[u8], at: usize, key: u64) -> u32
    requires { StandsAt run.now at }
    ensures { result ≡ stub_least key 65536 (lsa_from run.now at) 0 (links_field (lsa_from run.now at)) }
{
    let (l, links) = lsa_at(run, at);
    stub_least(l, links, key)
}

// The links with one more between routers a and b, if both have a metric for the other. There are 129 links where there are more than 128
// (a number and no Option: `LinksHeld` counts up to there, as the columns do).
pub(crate) fn add_link(links: Links, a: u8, b: u8, metric: u16, other: u16) -> Links
    ensures { (held : List lfa.Link) → LinksHeld held links → LinksHeld (held ++ link_if a b metric other) result }
{
    if metric == 0 {
        return links;
    }
    if other == 0 {
        return links;
    }
    let count = links.links;
    if 128 <= count {
        return Links {
            links: 129,
            ..links
        };
    }
    let mut more = links;
    more.from[count] = a;
    more.to[count] = b;
    more.out[count] = metric;
    more.back[count] = other;
    more.links = count + 1;
    more
}

// The links with those of router a to higher routers.
fn links_up(run: &[u8], n: usize, routers: Routers, a: usize, links: Links) -> Links
    requires { WholeRun run.now n × RoutersHeld run.now n routers × (n ≤ 64) × (a < n) }
    ensures { (held : List lfa.Link) → LinksHeld held links
        → LinksHeld (held ++ links_up (lsas_of run.now n) (ids_of (lsas_of run.now n)) a) result }
{
    let id = routers.id;
    let at = routers.at;
    let mut all = links;
    for b in a + 1..n {
        let metric = lsa_metric(run, at[a], id[b]);
        let other = lsa_metric(run, at[b], id[a]);
        all = add_link(all, a as u8, b as u8, metric, other);
    }
    all
}

// The links of a run of n LSAs, in order.
pub(crate) fn links_of(run: &[u8], n: usize, routers: Routers) -> Links
    requires { WholeRun run.now n × RoutersHeld run.now n routers × (n ≤ 64) }
    ensures { LinksHeld (network_from (lsas_of run.now n)).links result }
{
    let mut all = Links {
        routers: n,
        links: 0,
        prefixes: 0,
        from: [0u8; 128],
        to: [0u8; 128],
        out: [0u16; 128],
        back: [0u16; 128],
    };
    for a in 0..n {
        all = links_up(run, n, routers, a, all);
    }
    all
}

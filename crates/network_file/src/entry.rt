// Rows 6 to 9, the rows of the entries, in the order of the table.
ghost use Rattle.std.specs.Prelude.{◌≡◌};
ghost use Rattle.lfa.specs.File.{Bytes};
ghost use Rattle.lfa.specs.Refusal.{file_returned, first_row};
ghost use Rattle.network_file.specs.Entry.{FewLinks, LinksOf, link_rows, prefix_rows};
ghost use Rattle.network_file.specs.Load.{verdict_decided};

use super::Fault;
use super::link::{bad_link, parallel_link};
use super::prefix::{first_bad_prefix, first_router_twice};
use metric::columns::Links;

// Rows 6 and 7, the rows of links, each over all links before the next, for the links of a file that rows 1 to 5 pass.
pub(crate) fn judge_links(links: &Links) -> Result<(), Fault>
    requires { FewLinks links.now }
    ensures { (b : Bytes) → LinksOf b links.now → verdict_decided result ≡ first_row (file_returned b) link_rows }
{
    if let Some(k) = bad_link(links) {
        return Err(Fault::Link(k));
    }
    if let Some(k) = parallel_link(links) {
        return Err(Fault::ParallelLink(k));
    }
    Ok(())
}

// Rows 8 and 9, the rows of prefixes, in the same way.
pub(crate) fn judge_prefixes(file: &[u8], links: &Links) -> Result<(), Fault>
    requires { LinksOf file.now links.now }
    ensures { verdict_decided result ≡ first_row (file_returned file.now) prefix_rows }
{
    if let Some(p) = first_bad_prefix(file, links) {
        return Err(Fault::Prefix(p));
    }
    if let Some(p) = first_router_twice(file, links) {
        return Err(Fault::RouterTwice(p));
    }
    Ok(())
}

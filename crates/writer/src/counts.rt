// Whether a file has room for so many routers, links, prefixes and attachments as the columns hold.
ghost use Rattle.std.specs.Prelude.{◌≡◌, leb, get_or, length};
ghost use Rattle.lfa.specs.Lists.{every_below};
ghost use Rattle.lfa.specs.Writing.{counts_fit};
ghost use Rattle.network_file.specs.Held.{network_held};

use network_file::network::Network;

// Whether the entry of each prefix has room for its attachments.
fn entries_fit(attached: &[u8]) -> bool
    ensures { result ≡ every_below (λ p. leb (get_or attached.now p 0) 8) (length attached.now) }
{
    for count in attached {
        if 8 < *count {
            return false;
        }
    }
    true
}

pub(crate) fn counts_fit(network: &Network) -> bool
    ensures { result ≡ counts_fit (network_held network.now) }
{
    let prefixes = network.links.prefixes;
    if 64 < network.links.routers {
        return false;
    }
    if 128 < network.links.links {
        return false;
    }
    if 128 < prefixes {
        return false;
    }
    entries_fit(&network.attached[..prefixes])
}

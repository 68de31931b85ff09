// Writes a network into a lent buffer as document 01's network file.
//
// The file is put together in a buffer of our own, which has room for the largest file, and then the reader judges it. So the limits of
// links and prefixes are told by the reader alone, and the lent buffer is touched only where the whole file is written.
#![tactic(auto)]

ghost use Rattle.std.specs.Prelude.{◌≡◌, true};
ghost use Rattle.lfa.specs.Network as lfa;
ghost use Rattle.lfa.specs.FileOf.{file_of};
ghost use Rattle.lfa.specs.Writing.{counts_fit, Wrote};
ghost use Rattle.network_file.specs.Held.{network_held};

use counts::counts_fit;
use file::compose;
use network_file::judge;
use network_file::network::Network;
use put::put_bytes;

mod blocks;
mod counts;
mod file;
mod put;

// Writes a file that the reader accepts into a buffer that is not shorter, and returns its length; else nothing, and 0.
// 0 and no Option: `Wrote` and the C interface say so.
fn write_accepted(file: &[u8], buffer: &mut [u8]) -> usize
    ensures { (net : lfa.Network) → counts_fit net ≡ true → file.now ≡ file_of net
        → Wrote net result buffer.old buffer.new }
{
    let size = file.len();
    let accepted = judge(file).is_ok();
    if !accepted {
        return 0;
    }
    if buffer.len() < size {
        return 0;
    }
    put_bytes(buffer, file);
    size
}

// Writes the file of the network that the columns hold, and returns its length; 0, and nothing is written, where the network is not
// within the limits of document 01 or the buffer is shorter than the file.
pub fn write(network: &Network, buffer: &mut [u8]) -> usize
    ensures { Wrote (network_held network.now) result buffer.old buffer.new }
{
    if !counts_fit(network) {
        return 0;
    }
    let mut file = [0u8; 6656];
    let size = compose(network, &mut file);
    write_accepted(&file[0..size], buffer)
}

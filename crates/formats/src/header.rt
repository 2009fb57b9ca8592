// The headers of the row formats' blocks.
ghost use Rattle.std.specs.Prelude.{◌≡◌, ◌≤◌, length};
ghost use Rattle.formats.specs.Format.{header_of, HeaderPut};

use super::format::ARRIVAL;
use columns::bytes::copy;

// The header of the blocks of a kind: the words of specs/Header.antt in their columns.
pub fn header_words(kind: u8) -> &'static [u8]
    ensures words { result.now ≡ header_of kind }
    ensures size { length result.now ≤ 256 }
{
    match kind {
        ARRIVAL =>
            b"Net       Sta   BeamID          Date       Time      Phase     Azim  Slow   SNR       Amp   Per   STA   Dur Author       DetID    Agy   Deploy   Ln Auth  Rep   PCh ACh L   Lat       Lon     Elev    Depth",
        _ =>
            b"Sta     Dist  EvAz Phase        Time      TRes  Azim AzRes   Slow   SRes Def   SNR       Amp   Per Qual Magnitude    ArrID    Agy   Deploy   Ln Auth  Rep   PCh ACh L   Lat       Lon     Elev    Depth",
    }
}

// The header of the blocks of a kind over the first bytes of `out`; answers its length.
pub fn put_header(kind: u8, out: &mut [u8; 256]) -> usize
    ensures { HeaderPut kind result out.old out.new }
{
    let words = header_words(kind);
    copy(out, words);
    words.len()
}

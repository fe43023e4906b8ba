// The address rules for C: a static library over the crate `media`, with an export for each function that C calls. host/media.h declares them.
// C has no Kind and no Result, and each export is a function of its own, which only calls the one of its name.
#![tactic(auto)]

ghost use Rattle.std.specs.Prelude.{◌≡◌, ◌<◌, IfOk};
ghost use Rattle.media.specs.Address.{place_given, block_reply, header_reply};
ghost use Rattle.media.specs.Host.{check_reply, host_block, host_header, host_check};

use media::host;

/// The block number of a place on a pack of this kind, or 65,536 plus the number of the refusal.
#[unsafe(no_mangle)]
pub extern "C" fn media_block_number(kind: u32, cylinder: u32, head: u32, sector: u32) -> u32
    ensures answer { result ≡ host_block kind cylinder head sector }
    ensures apart { IfOk (block_reply kind (place_given cylinder head sector)) (λ b. b < 65536) }
{
    host::media_block_number(kind, cylinder, head, sector)
}

/// The header word of a place on a pack of this kind, or 65,536 plus the number of the refusal.
#[unsafe(no_mangle)]
pub extern "C" fn media_header_word(kind: u32, cylinder: u32, head: u32, sector: u32) -> u32
    ensures answer { result ≡ host_header kind cylinder head sector }
    ensures apart { IfOk (header_reply kind (place_given cylinder head sector)) (λ w. w < 65536) }
{
    host::media_header_word(kind, cylinder, head, sector)
}

/// The check word of a header word, or 65,536 plus the number of the refusal.
#[unsafe(no_mangle)]
pub extern "C" fn media_check_word(header: u32) -> u32
    ensures answer { result ≡ host_check header }
    ensures apart { IfOk (check_reply header) (λ w. w < 65536) }
{
    host::media_check_word(header)
}

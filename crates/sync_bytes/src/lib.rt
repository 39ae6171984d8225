// Sync as it stands in F1-frames (14.1, 16): the bytes of each pair are exchanged.
#![tactic(auto)]

ghost use Rattle.std.specs.Prelude.{◌≡◌};
ghost use Rattle.sector.specs.Layout.{sync};
ghost use Rattle.pair_exchange.specs.Exchange.{exchanged};
ghost use Rattle.sync_bytes.specs.SyncAt.{sync_at};

// The Sync bytes with the bytes of each pair exchanged.
fn exchanged_sync() -> [u8; 12]
    ensures { result ≡ exchanged sync }
{
    [255, 0, 255, 255, 255, 255, 255, 255, 255, 255, 0, 255]
}

// Whether these twelve bytes stand from byte p on.
pub fn sync_at(frames: &[u8], p: usize) -> bool
    ensures { result ≡ sync_at frames.now p }
{
    if frames.len() < p {
        return false;
    }
    let end = p + 12;
    if frames.len() < end {
        return false;
    }
    let right = exchanged_sync();
    check::same(&frames[p..end], &right)
}

//! Shares of the ledger of frames.
ghost use Rattle.std.specs.Prelude.{◌≡◌};

use std::sync::Mutex;
use std::sync::ledger::{Ledger, Share};

/// The right to one frame: a share of one in the ledger of a pool's frames.
#[derive(Drop)]
pub struct FrameRight<B: Ledger> {
    share: Share<B>,
    ghost one: { (share.parts ≡ 1) × (share.amount ≡ 1) },
}

/// A frame's right as it stands beside the frame, in a body, a turn or an open page. The lock is never taken: it lets the
/// right lie in what threads share.
pub type FrameShare<B> = Mutex<FrameRight<B>>;

/// The right that a share gives.
pub fn frame_share<B: Ledger>(share: Share<B>) -> FrameShare<B>
    requires { (share.parts ≡ 1) × (share.amount ≡ 1) }
{
    Mutex::new(FrameRight { share })
}

/// The share that a right has.
pub fn share_of<B: Ledger>(kept: FrameShare<B>) -> Share<B>
    ensures { (result.parts ≡ 1) × (result.amount ≡ 1) }
{
    let FrameRight { share } = kept.into_inner();
    share
}

//! What the disk of a recorder has to do is handed out.

ghost use Rattle.std.specs.Prelude.{◌≤◌, length};
ghost use Rattle.r10_region.specs.Orders.{HandsOrderOut, HandsRunOut};
ghost use Rattle.r10_ffi.specs.Calls.{HandsHeld};

use crate::held::LentRecorder;
use r10_region::{OrderOut, RunOut};

impl LentRecorder {
    /// Hands out the next operation that the disk was asked to do, or says that all were handed out.
    pub(crate) fn hand_out(&mut self, out: &mut OrderOut, bytes: &mut [u8])
        requires { 512 ≤ length bytes.old }
        ensures { HandsHeld self.old self.new
            (λ before after. HandsOrderOut before after self.old.orders self.new.orders out.new bytes.old bytes.new) }
    {
        self.desk.show(&mut self.orders);
        self.orders.hand_out(out, bytes);
    }

    /// Hands out the next of them that may be done at once, or says that all were handed out.
    pub(crate) fn hand_out_run(&mut self, out: &mut RunOut, bytes: &mut [u8])
        requires { 512 ≤ length bytes.old }
        ensures { HandsHeld self.old self.new
            (λ before after. HandsRunOut before after self.old.orders self.new.orders out.new bytes.old bytes.new) }
    {
        self.desk.show(&mut self.orders);
        self.orders.hand_out_run(out, bytes);
    }
}

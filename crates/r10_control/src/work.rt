//! What a recorder does.

ghost use Rattle.std.specs.Prelude.{◌≡◌};
ghost use Rattle.r10_refinement.specs.KeptState.{mode_of};
ghost use Rattle.r10_control.specs.Work.{work_of};

use r10_dirchain::Directory;
use r10_machine::Mode;
use r10_openfile::OpenFile;

/// What a recorder does, with the directory that it has in use and the file that it records.
#[derive(Drop)]
pub(crate) enum Doing {
    Unmounted,
    Idle(Directory),
    Recording(Directory, OpenFile),
    Failed,
}

/// The mode of a recorder that does this.
pub(crate) fn mode_in(work: &Doing) -> Mode
    ensures { result ≡ mode_of (work_of work.now) }
{
    match work {
        Doing::Unmounted => Mode::Unmounted,
        Doing::Idle(_) => Mode::Idle,
        Doing::Recording(_, _) => Mode::Recording,
        Doing::Failed => Mode::Failed,
    }
}

/// Does something else from now on.
pub(crate) fn set_work(work: &mut Doing, to: Doing)
    ensures { work.new ≡ to }
{
    *work = to;
}

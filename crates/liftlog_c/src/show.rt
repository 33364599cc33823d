// The calls that change nothing, for C.
ghost use Rattle.liftlog.specs.Shown.{ReadTold, CountsTold};

use liftlog::{Reading, Report};
use mirror::State;
use record::Lsn;

#[unsafe(no_mangle)]
pub extern "C" fn liftlog_read(state: State, image: &[u8], lsn: Lsn) -> Reading
    ensures { ReadTold state image.now lsn.0 result }
{
    liftlog::liftlog_read(state, image, lsn)
}

#[unsafe(no_mangle)]
pub extern "C" fn liftlog_counts(state: State) -> Report
    ensures { CountsTold state result }
{
    liftlog::liftlog_counts(state)
}

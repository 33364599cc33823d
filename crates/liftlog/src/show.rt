// The calls that change nothing: read and counts. They hand back no state, since the caller has its own still.
ghost use Rattle.liftlog.specs.Shown.{ReadTold, CountsTold};

use crate::{Reading, Report};
use mirror::State;
use record::Lsn;
use refusals::DONE;
use state::State as Log;

pub fn liftlog_read(state: State, image: &[u8], lsn: Lsn) -> Reading
    ensures { ReadTold state image.now lsn.0 result }
{
    let Ok(log) = Log::try_from(state) else {
        let sized = outcome::sized(state.e, state.s, image.len());
        return Reading::refused(mirror::unknown(sized));
    };
    match read::read(log, image, lsn) {
        Ok(span) => Reading {
            number: DONE,
            place: span.place,
            length: span.length,
        },
        Err(why) => Reading::refused(why),
    }
}

pub fn liftlog_counts(state: State) -> Report
    ensures { CountsTold state result }
{
    let Ok(log) = Log::try_from(state) else {
        let sized = metadata::sizes_ok(state.e, state.s);
        return Report::refused(mirror::unknown(sized));
    };
    match counts::count(log) {
        Ok(counted) => Report {
            number: DONE,
            free: counted.free,
            live: counted.live,
        },
        Err(why) => Report::refused(why),
    }
}

// The eleven steps over the mirror: each refuses a mode that is none of the ten, else makes the step on the log that the state
// mirrors, and names the store that it has made. What a step does is said in the crate of its subject.
// The lines that they share are three: a function over a closure would have to lend the image too, and to say again what the step says of it.
ghost use Rattle.contracts.specs.Call.{wipes, marks, appends, roll_begins, roll_writes, roll_lists, head_starts, tail_starts, tail_finishes, closes};
ghost use Rattle.liftlog.specs.Told.{Told, HeadFinishTold};

use mirror::{Answer, State};
use record::Lsn;
use state::State as Log;

pub fn liftlog_wipe(state: State, image: &mut [u8]) -> Answer
    ensures { Told wipes state image.old result image.new }
{
    let Ok(log) = Log::try_from(state) else {
        return state.refused(image.len());
    };
    let ended = recovery::wipe(log, image);
    mirror::mirrored(log, ended, named::of_rest(log, &ended))
}

pub fn liftlog_mark(state: State, image: &mut [u8]) -> Answer
    ensures { Told marks state image.old result image.new }
{
    let Ok(log) = Log::try_from(state) else {
        return state.refused(image.len());
    };
    let ended = recovery::mark(log, image);
    mirror::mirrored(log, ended, named::of_metadata(&ended))
}

pub fn liftlog_append(state: State, image: &mut [u8], payload: &[u8]) -> Answer
    ensures { Told (appends payload.now) state image.old result image.new }
{
    let Ok(log) = Log::try_from(state) else {
        return state.refused(image.len());
    };
    let ended = append::append(log, image, payload);
    mirror::mirrored(log, ended, named::of_append(log, payload, &ended))
}

pub fn liftlog_roll_begin(state: State, image: &mut [u8], p: usize) -> Answer
    ensures { Told (roll_begins p) state image.old result image.new }
{
    let Ok(log) = Log::try_from(state) else {
        return state.refused(image.len());
    };
    let ended = roll::roll_begin(log, image, p);
    mirror::mirrored(
        log,
        ended,
        named::of_roll_begin(log.e, ended.unwrap_or(log).roll_slot, &ended),
    )
}

pub fn liftlog_roll_write(state: State, image: &mut [u8], payload: &[u8]) -> Answer
    ensures { Told (roll_writes payload.now) state image.old result image.new }
{
    let Ok(log) = Log::try_from(state) else {
        return state.refused(image.len());
    };
    let ended = roll::roll_write(log, image, payload);
    mirror::mirrored(
        log,
        ended,
        named::of_roll_write(log.e, log.roll_slot, payload, &ended),
    )
}

pub fn liftlog_roll_list(state: State, image: &mut [u8]) -> Answer
    ensures { Told roll_lists state image.old result image.new }
{
    let Ok(log) = Log::try_from(state) else {
        return state.refused(image.len());
    };
    let ended = roll::roll_list(log, image);
    mirror::mirrored(log, ended, named::of_metadata(&ended))
}

pub fn liftlog_head_start(state: State, image: &mut [u8], h: Lsn) -> Answer
    ensures { Told (head_starts h.0) state image.old result image.new }
{
    let Ok(log) = Log::try_from(state) else {
        return state.refused(image.len());
    };
    let ended = head::head_start(log, image, h);
    mirror::mirrored(log, ended, named::of_metadata(&ended))
}

// No store: the image is only lent to be measured.
pub fn liftlog_head_finish(state: State, image: &[u8]) -> Answer
    ensures { HeadFinishTold state image.now result }
{
    let Ok(log) = Log::try_from(state) else {
        return state.refused(image.len());
    };
    mirror::mirrored(log, head::head_finish(log, image), named::nothing())
}

pub fn liftlog_tail_start(state: State, image: &mut [u8], t: Lsn) -> Answer
    ensures { Told (tail_starts t.0) state image.old result image.new }
{
    let Ok(log) = Log::try_from(state) else {
        return state.refused(image.len());
    };
    let ended = tail::tail_start(log, image, t);
    mirror::mirrored(log, ended, named::of_metadata(&ended))
}

pub fn liftlog_tail_finish(state: State, image: &mut [u8]) -> Answer
    ensures { Told tail_finishes state image.old result image.new }
{
    let Ok(log) = Log::try_from(state) else {
        return state.refused(image.len());
    };
    let ended = tail::tail_finish(log, image);
    mirror::mirrored(log, ended, named::of_rest(log, &ended))
}

pub fn liftlog_close(state: State, image: &mut [u8]) -> Answer
    ensures { Told closes state image.old result image.new }
{
    let Ok(log) = Log::try_from(state) else {
        return state.refused(image.len());
    };
    let ended = close::close(log, image);
    mirror::mirrored(log, ended, named::of_metadata(&ended))
}

// The eleven steps, for C.
ghost use Rattle.contracts.specs.Call.{wipes, marks, appends, roll_begins, roll_writes, roll_lists, head_starts, tail_starts, tail_finishes, closes};
ghost use Rattle.liftlog.specs.Told.{Told, HeadFinishTold};

use mirror::{Answer, State};
use record::Lsn;

#[unsafe(no_mangle)]
pub extern "C" fn liftlog_wipe(state: State, image: &mut [u8]) -> Answer
    ensures { Told wipes state image.old result image.new }
{
    liftlog::liftlog_wipe(state, image)
}

#[unsafe(no_mangle)]
pub extern "C" fn liftlog_mark(state: State, image: &mut [u8]) -> Answer
    ensures { Told marks state image.old result image.new }
{
    liftlog::liftlog_mark(state, image)
}

#[unsafe(no_mangle)]
pub extern "C" fn liftlog_append(state: State, image: &mut [u8], payload: &[u8]) -> Answer
    ensures { Told (appends payload.now) state image.old result image.new }
{
    liftlog::liftlog_append(state, image, payload)
}

#[unsafe(no_mangle)]
pub extern "C" fn liftlog_roll_begin(state: State, image: &mut [u8], p: usize) -> Answer
    ensures { Told (roll_begins p) state image.old result image.new }
{
    liftlog::liftlog_roll_begin(state, image, p)
}

#[unsafe(no_mangle)]
pub extern "C" fn liftlog_roll_write(state: State, image: &mut [u8], payload: &[u8]) -> Answer
    ensures { Told (roll_writes payload.now) state image.old result image.new }
{
    liftlog::liftlog_roll_write(state, image, payload)
}

#[unsafe(no_mangle)]
pub extern "C" fn liftlog_roll_list(state: State, image: &mut [u8]) -> Answer
    ensures { Told roll_lists state image.old result image.new }
{
    liftlog::liftlog_roll_list(state, image)
}

#[unsafe(no_mangle)]
pub extern "C" fn liftlog_head_start(state: State, image: &mut [u8], h: Lsn) -> Answer
    ensures { Told (head_starts h.0) state image.old result image.new }
{
    liftlog::liftlog_head_start(state, image, h)
}

// No store: the image is only lent to be measured.
#[unsafe(no_mangle)]
pub extern "C" fn liftlog_head_finish(state: State, image: &[u8]) -> Answer
    ensures { HeadFinishTold state image.now result }
{
    liftlog::liftlog_head_finish(state, image)
}

#[unsafe(no_mangle)]
pub extern "C" fn liftlog_tail_start(state: State, image: &mut [u8], t: Lsn) -> Answer
    ensures { Told (tail_starts t.0) state image.old result image.new }
{
    liftlog::liftlog_tail_start(state, image, t)
}

#[unsafe(no_mangle)]
pub extern "C" fn liftlog_tail_finish(state: State, image: &mut [u8]) -> Answer
    ensures { Told tail_finishes state image.old result image.new }
{
    liftlog::liftlog_tail_finish(state, image)
}

#[unsafe(no_mangle)]
pub extern "C" fn liftlog_close(state: State, image: &mut [u8]) -> Answer
    ensures { Told closes state image.old result image.new }
{
    liftlog::liftlog_close(state, image)
}

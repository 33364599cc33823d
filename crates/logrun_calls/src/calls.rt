// The calls of a script. One function serves the call and the call that is cut: the image's length lets a whole store through.
ghost use Rattle.std.specs.Prelude.{◌≤◌, length};

use record::Lsn;
use script::Call;
use steps::{Answer, Log};

// The longest line: its payload has at most half as many bytes.
const MOST: usize = 2048;

// A store of metadata arrives whole or not at all.
fn all_or_none(k: usize) -> usize {
    if k < metadata::LENGTH { 0 } else { k }
}

// The call with its payload, its store cut after k bytes. What only looks leaves the state. An arm for each call, since they differ in what
// they take.
fn call_cut(log: Log, image: &mut [u8], payload: &[u8], call: Call, k: usize) -> Answer {
    let whole = all_or_none(k);
    match call {
        Call::Open => Log::open(image),
        Call::Wipe => log.wipe_cut(image, k),
        Call::Mark => log.mark_cut(image, whole),
        Call::Append => log.append_cut(image, payload, k),
        Call::Begin(p) => log.roll_begin_cut(image, p as usize, k),
        Call::Write => log.roll_write_cut(image, payload, k),
        Call::List => log.roll_list_cut(image, whole),
        Call::Head(h) => log.head_start_cut(image, Lsn(h), whole),
        Call::HeadFinish => log.head_finish(image),
        Call::Tail(t) => log.tail_start_cut(image, Lsn(t), whole),
        Call::TailFinish => log.tail_finish_cut(image, k),
        Call::Close => log.close_cut(image, whole),
        Call::Read(x) => Answer {
            number: log.read(image, Lsn(x)).number,
            log,
        },
        Call::Counts => Answer {
            number: log.counts().number,
            log,
        },
    }
}

// The call that a line asks for. Its last word is the payload where the call has one, and is not looked at where it has none.
pub(crate) fn called(log: Log, image: &mut [u8], line: &[u8], call: Call, k: usize) -> Answer
    requires { length line.now ≤ 4096 }
{
    let mut bytes = [0u8; MOST];
    let n = script::payload(line, &mut bytes);
    call_cut(log, image, &bytes[..n], call, k)
}

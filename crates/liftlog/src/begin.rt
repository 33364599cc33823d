// The calls that make a state: create, once, before the log's life; open, at any time, from the image alone.
ghost use Rattle.liftlog.specs.Told.{CreateTold, OpenTold};

use mirror::Answer;
use state::State as Log;

pub fn liftlog_create(image: &mut [u8], e: u32, s: u8) -> Answer
    ensures { CreateTold e s image.old result image.new }
{
    mirror::mirrored(Log::zero(), create::create(image, e, s), named::nothing())
}

pub fn liftlog_open(image: &[u8]) -> Answer
    ensures { OpenTold image.now result }
{
    mirror::mirrored(Log::zero(), recovery::open(image), named::nothing())
}

// The calls that make a state, for C.
ghost use Rattle.liftlog.specs.Told.{CreateTold, OpenTold};

use mirror::Answer;

#[unsafe(no_mangle)]
pub extern "C" fn liftlog_create(image: &mut [u8], e: u32, s: u8) -> Answer
    ensures { CreateTold e s image.old result image.new }
{
    liftlog::liftlog_create(image, e, s)
}

#[unsafe(no_mangle)]
pub extern "C" fn liftlog_open(image: &[u8]) -> Answer
    ensures { OpenTold image.now result }
{
    liftlog::liftlog_open(image)
}

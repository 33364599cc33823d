// Lists the image on standard input, or those in the files that its arguments name. Stored are: on standard input a fresh one, of two
// slots of 64 bytes; `several`, four extents whose slots are in no order, with head inside the first and a torn record behind the
// tail; `damaged`, two extents that do not join, since the second starts one LSN above where the first one's walk stops; `long`, one
// byte more than 64 KiB with a fresh image at its front; and `missing`, which is not there.

#![tactic(auto)]

use std::io;

fn main(rt: HostRuntime) -> io::Result<()> {
    inputs::for_each(
        &rt,
        |source| loglist_core::list_input(source, &mut io::writer(&rt)),
    )
}

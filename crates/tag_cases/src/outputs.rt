// What the cases print.
use disc::refusals::Refusal;
use std::io;

pub(crate) fn refused(rt: &impl Print, why: Refusal) -> io::Result<()> {
    println!(rt; ": refused {}", why.number())
}

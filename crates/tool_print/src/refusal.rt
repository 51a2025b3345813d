// A refusal in words.
use refusals::Refusal;
use std::io;

pub fn tell(rt: &impl Print, r: Refusal) -> io::Result<()> {
    println!(rt; "refusal {}: {}", r.number(), meaning(r))
}

fn meaning(r: Refusal) -> &'static str {
    match r {
        Refusal::ShelfNotWellFormed => "the shelf record is not well formed",
        Refusal::PageTooShort => "the page has fewer than 4 bytes",
        Refusal::PageCode => "byte 0 is not the page code wanted",
        Refusal::PageLength => "the bytes given are not the page length + 4",
        Refusal::Generation => "the generation code differs from the shelf's",
        Refusal::NotAllowed => "a reserved bit is set, or a value is not allowed",
        Refusal::NoSuchThreshold => "a threshold is set that the type does not have",
        Refusal::ThresholdOrder => "an element would break the threshold order",
        Refusal::WantedList => "the list does not fit the shelf's elements",
        Refusal::Unreachable => "no valid control page reaches the wanted settings",
        Refusal::OutputTooShort => "the output buffer is shorter than the page",
        Refusal::NeededLength => "the page needs another length than it has",
        Refusal::NoSuchElement => "a number past the last element",
    }
}

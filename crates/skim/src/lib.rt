// Runs of colours that a look passes over.
#![tactic(auto)]

ghost use Rattle.std.specs.Prelude.{◌≡◌, ◌+◌, ◌<◌, ◌≤◌, length};
ghost use Rattle.skim.specs.Stops.{stop, stops, block};

// The colours that are read at a time: four vectors of sixteen bytes.
const BLOCK: usize = 64;

// Behind every place of a block.
const BEHIND: u8 = 64;

// 1 where this colour stops a look, else 0.
// Kept: a number, since `stops_among` sums it, as the definition `stops` does.
pub fn stop(v: u8) -> u8
    ensures { (result ≤ 1) × (result ≡ stop v) }
{
    match v {
        0 | 2 => 0,
        _ => 1,
    }
}

// How many of the colours, at most a block, stop a look. It reads them all, so that the compiler
// can take them many at a time where they are a block.
// Kept: by numbers, here and below: with an iterator over a slice the library's module would depend
// on the size of a pointer.
fn stops_among(colours: &[u8]) -> u8
    requires { length colours.now ≤ block }
    ensures { (result ≤ length colours.now) × (result ≡ stops colours.now 0 (length colours.now)) }
{
    let mut found = 0;
    for j in 0..colours.len() {
        found += stop(colours[j]);
    }
    found
}

// How many colours stop a look.
pub fn all_stops(colour: &[u8]) -> usize
    ensures { result ≡ stops colour.now 0 (length colour.now) }
{
    let (blocks, rest) = colour.as_chunks::<BLOCK>();
    let mut found = 0;
    for n in 0..blocks.len() {
        found += usize::from(stops_among(&blocks[n]));
    }
    found + usize::from(stops_among(rest))
}

// j where this colour stops a look, else behind the block.
// Kept: no Option: tried, `position` on a block takes 26 ns where none of 64 stops, for 10 ns.
fn stop_at(v: u8, j: u8) -> u8
    ensures { j < result → 0 ≡ stop v }
{
    if stop(v) != 0 { j } else { BEHIND }
}

// Where the first colour is that stops a look; the block's size if none does.
// Kept: `as`: a `usize` has no `From` into a narrower type, and j is below a block.
fn first_in_block(colours: &[u8]) -> usize
    requires { length colours.now ≡ block }
    ensures { (result ≤ block) × (0 ≡ stops colours.now 0 result) }
{
    let mut first = BEHIND;
    for j in 0..BLOCK {
        first = first.min(stop_at(colours[j], j as u8));
    }
    usize::from(first)
}

// How many colours come before the first that stops a look, a block at a time. The last ones are
// read with some of those before them.
fn until_stop_by_blocks(run: &[u8]) -> usize
    requires { block ≤ length run.now }
    ensures { (result ≤ length run.now) × (0 ≡ stops run.now 0 result) }
{
    let (blocks, _) = run.as_chunks::<BLOCK>();
    for n in 0..blocks.len() {
        if stops_among(&blocks[n]) != 0 {
            return n * BLOCK + first_in_block(&blocks[n]);
        }
    }
    let d = run.len() - BLOCK;
    d + first_in_block(&run[d..d + BLOCK])
}

// The same, one at a time.
fn until_stop_by_ones(run: &[u8]) -> usize
    ensures { (result ≤ length run.now) × (0 ≡ stops run.now 0 result) }
{
    for d in 0..run.len() {
        if stop(run[d]) != 0 {
            return d;
        }
    }
    run.len()
}

// How many colours from i on, at most most, a look passes over.
pub fn until_stop(colour: &[u8], i: usize, most: usize) -> usize
    requires { i + most ≤ length colour.now }
    ensures { (result ≤ most) × (0 ≡ stops colour.now i result) }
{
    let run = &colour[i..i + most];
    if most < BLOCK {
        until_stop_by_ones(run)
    } else {
        until_stop_by_blocks(run)
    }
}

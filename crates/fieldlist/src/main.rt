// Lists the elements of the frame on standard input: the answer, then first bit, width, name, block, index and value of each.
#![tactic(auto)]

fn main(rt: HostRuntime) -> std::io::Result<()> {
    let text = listing::text_of(ingest::input(&rt)?);
    text.write(&rt)
}

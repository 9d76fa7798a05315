// The exponent strategies of the frame on standard input, as a table.
#![tactic(auto)]

fn main(rt: HostRuntime) -> std::io::Result<()> {
    let text = strategy_table::text_of(ingest::input(&rt)?);
    text.write(&rt)
}

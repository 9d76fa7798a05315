// The bits of the slots of the frame on standard input, as a table.
#![tactic(auto)]

fn main(rt: HostRuntime) -> std::io::Result<()> {
    let records = ingest::input(&rt)?;
    let text = slot_table::text_of(records.answer);
    text.write(&rt)
}

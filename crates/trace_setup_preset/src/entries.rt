// Lines about the configuration and the registries.
use crate::{Answer, Changed, Preset};
use refusal::Refusal;
use trace_grammar::Registry;

// `config RATE FRAMES VOICES`
fn on_config(p: Preset, line: &[u8]) -> Result<Changed, Refusal> {
    let config = trace_input_words::config(line);
    let stride = program::stride(config)?;
    let chunks = program::max_chunks(config)?;
    let mut preset = p;
    preset.config = config;
    let answer = Answer::Config { stride, chunks };
    Ok(Changed { preset, answer })
}

// `source KEY KIND SCOPE RANGE`
fn on_source(p: Preset, line: &[u8]) -> Result<Changed, Refusal> {
    let w = trace_input_words::source(line);
    let key = trace_input_words::key(trace_input_session::word(line, 1));
    let added = source::add(p.sources, key, w.kind, w.scope, w.range)?;
    let mut preset = p;
    preset.sources = added.sources;
    let answer = Answer::Source(added.id);
    Ok(Changed { preset, answer })
}

// `dest TARGET SCOPE RATE MIN MAX FEED`
fn on_dest(p: Preset, line: &[u8]) -> Result<Changed, Refusal> {
    let w = trace_input_words::dest(line);
    let target = trace_input_words::target(trace_input_session::word(line, 1));
    let feed = trace_input_words::feed(trace_input_session::word(line, 6));
    let added = dest::add(p.dests, target, w.scope, w.rate, w.min, w.max, feed)?;
    let mut preset = p;
    preset.dests = added.dests;
    let answer = Answer::Dest(added.id);
    Ok(Changed { preset, answer })
}

// `find KEY`
fn on_find(preset: Preset, line: &[u8]) -> Result<Changed, Refusal> {
    let key = trace_input_words::key(trace_input_session::word(line, 1));
    let answer = Answer::Found(source::find(preset.sources, key)?);
    Ok(Changed { preset, answer })
}

// `newreg`
fn on_newreg(p: Preset) -> Changed {
    let sources = source::new();
    let dests = dest::new();
    let mut preset = p;
    preset.sources = sources;
    preset.dests = dests;
    let answer = Answer::Cleared;
    Changed { preset, answer }
}

// a line about the configuration and the registries
pub fn registry_line(p: Preset, c: Registry, line: &[u8]) -> Result<Changed, Refusal> {
    match c {
        Registry::Config => on_config(p, line),
        Registry::Source => on_source(p, line),
        Registry::Dest => on_dest(p, line),
        Registry::Newreg => Ok(on_newreg(p)),
        Registry::Find => on_find(p, line),
    }
}

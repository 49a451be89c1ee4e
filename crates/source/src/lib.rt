// The registry of sources (source.rs; document 01, Source entry), and what a source's kind says of it.
#![tactic(auto)]

ghost use Rattle.std.specs.Prelude.{◌≡◌, false, Ok, cond, ◌||◌, ◌+◌, ◌≤◌, ◌<◌, eqb, ltb, length, drop};
ghost use Rattle.list.specs.Part.{part};
ghost use Rattle.refusal.specs.Judge.{judged};
ghost use Rattle.refusal.specs.Refusal.{code_of};
ghost use Rattle.config.specs.Sizes.{most_sources};
ghost use Rattle.source.specs.Keys.{most_key_bytes, key_length, key_is, key_array};
ghost use Rattle.state.specs.Registry.{no_source as blankEntry, source_count};
ghost use Rattle.source.specs.Registry.{no_sources, sources_empty, registered, get_source, find_key, find_source};
ghost use Rattle.source.specs.Registry.{add_rows, new_entry, with_entry, added_said, add_source};
ghost use Rattle.source.specs.Registry.{found_reply, found_says};
ghost use Rattle.source.specs.Info.{engine_owned, usual_scope, usual_range, usual_info, info_voice, info_global};
ghost use Rattle.source.specs.Info.{info_bipolar};
ghost use Rattle.source_key.specs.Numbered.{numbered_key};
ghost use Rattle.source.specs.Standard.{held_info, audio_info, with_source, with_numbered, lfo_pair, with_lfos};
ghost use Rattle.source.specs.Standard.{with_note_sources, with_controllers, with_audio, with_sequence, all_sources};
ghost use Rattle.source.specs.Standard.{audio_keys, total, any_long, any_same, has, fixed_sources, sequence_key};
ghost use Rattle.source.specs.Standard.{standard_key, clashes, standard_count, standard_rows, made_said};
ghost use Rattle.source.specs.Standard.{standard_sources};

use config::SOURCES;
use refusal::Refusal;
use state::{KEY_BYTES, Kind, Range, Scope, Source, Sources};

// The registry with one source more, and the source's number.
#[derive(Clone, Copy)]
pub struct Added {
    pub id: usize,
    pub sources: Sources,
}

// A source without its key: what `add` takes beside the key.
#[derive(Clone, Copy)]
pub struct SourceInfo {
    pub kind: Kind,
    pub scope: Scope,
    pub range: Range,
}

// How many of each kind the standard sources have.
#[derive(Clone, Copy)]
pub struct Counts {
    pub envelopes: usize,
    pub lfos: usize,
    pub macros: usize,
    pub sequence_values: usize,
}

// ---- the registry

// What stands where nothing is registered.
fn blank_entry() -> Source
    ensures { result ≡ blankEntry }
{
    Source {
        key: [0u8; KEY_BYTES],
        len: 0,
        kind: Kind::Signal,
        scope: Scope::Voice,
        range: Range::Unipolar,
    }
}

// The empty registry.
pub fn new() -> Sources
    ensures { result ≡ no_sources }
{
    let blank = blank_entry();
    let entry = [blank; SOURCES];
    Sources {
        count: 0,
        entry: entry,
    }
}

// How many sources are registered.
pub fn len(sources: Sources) -> usize
    ensures { result ≡ source_count sources }
{
    let count = sources.count;
    if count <= SOURCES {
        return count;
    }
    SOURCES
}

// Whether none is.
pub fn is_empty(sources: Sources) -> bool
    ensures { result ≡ sources_empty sources }
{
    sources.count == 0
}

// Entry `id`, if it is registered.
pub fn get(sources: Sources, id: usize) -> Option<Source>
    ensures { result ≡ get_source sources id }
{
    if id < len(sources) {
        return Some(sources.entry[id]);
    }
    None
}

// ---- keys

// The length of an entry's key.
fn key_len(len: usize) -> usize
    ensures { result ≡ key_length len }
{
    if len <= KEY_BYTES {
        return len;
    }
    KEY_BYTES
}

// Whether the entry has this key.
fn key_is(source: Source, key: &[u8]) -> bool
    ensures { result ≡ key_is key.now source }
{
    let bytes = source.key;
    key == &bytes[..key_len(source.len)]
}

// The number of the first entry with this key.
fn find_key(sources: Sources, key: &[u8]) -> Option<usize>
    ensures { result ≡ find_key 0 key.now (registered sources) }
{
    let n = len(sources);
    for i in 0..n {
        let source = sources.entry[i];
        if key_is(source, key) {
            return Some(i);
        }
    }
    None
}

// The number of the source with this key, if there is one.
pub fn find(sources: Sources, key: &[u8]) -> Result<Option<usize>, Refusal>
    ensures value { result ≡ find_source sources key.now }
    ensures reply { found_reply result ≡ found_says sources key.now }
{
    if KEY_BYTES < key.len() {
        return Err(Refusal::Length);
    }
    Ok(find_key(sources, key))
}

// ---- adding

// Whether a key may be added, or why it may not.
fn check_key(sources: Sources, key: &[u8]) -> Result<(), Refusal>
    ensures { code_of result ≡ judged (add_rows sources key.now) }
{
    refusal::when(find_key(sources, key).is_some(), Refusal::Registered)?;
    refusal::when(SOURCES <= len(sources), Refusal::Full)?;
    refusal::when(KEY_BYTES < key.len(), Refusal::Length)
}

// The key's bytes, then zeros.
fn key_array(key: &[u8]) -> [u8; KEY_BYTES]
    requires { length key.now ≤ most_key_bytes }
    ensures { result ≡ key_array key.now }
{
    let mut bytes = [0u8; KEY_BYTES];
    bytes[..key.len()].copy_from_slice(key);
    bytes
}

// The entry of a source under its key.
fn new_entry(key: &[u8], info: SourceInfo) -> Source
    requires { length key.now ≤ most_key_bytes }
    ensures { result ≡ new_entry key.now info.kind info.scope info.range }
{
    Source {
        key: key_array(key),
        len: key.len(),
        kind: info.kind,
        scope: info.scope,
        range: info.range,
    }
}

// The registry with one entry more.
fn with_entry(sources: Sources, source: Source) -> Sources
    requires { source_count sources < most_sources }
    ensures { result ≡ with_entry sources source }
{
    let n = len(sources);
    let mut more = sources;
    more.entry[n] = source;
    more.count = n + 1;
    more
}

// Registers a source under its key.
pub fn add(
    sources: Sources,
    key: &[u8],
    kind: Kind,
    scope: Scope,
    range: Range,
) -> Result<Added, Refusal>
    ensures { added_said sources result ≡ add_source sources key.now kind scope range }
{
    check_key(sources, key)?;
    let source = new_entry(key, SourceInfo { kind, scope, range });
    Ok(Added {
        id: len(sources),
        sources: with_entry(sources, source),
    })
}

// ---- what a kind says of its source

// Whether the engine makes the value of such a source itself.
pub fn is_engine_owned(kind: Kind) -> bool
    ensures { result ≡ engine_owned kind }
{
    match kind {
        Kind::Signal => false,
        Kind::Audio => false,
        Kind::Held => false,
        Kind::Velocity => true,
        Kind::Key => true,
        Kind::ReleaseVelocity => true,
        Kind::Random => true,
        Kind::Alternate { inverse: _ } => true,
        Kind::RandomPerRoute => true,
        Kind::VoiceLoad => true,
        Kind::Constant => true,
    }
}

fn usual_scope(kind: Kind) -> Scope
    ensures { result ≡ usual_scope kind }
{
    match kind {
        Kind::Signal => Scope::Voice,
        Kind::Audio => Scope::Voice,
        Kind::Held => Scope::Global,
        Kind::Velocity => Scope::Voice,
        Kind::Key => Scope::Voice,
        Kind::ReleaseVelocity => Scope::Voice,
        Kind::Random => Scope::Voice,
        Kind::Alternate { inverse: _ } => Scope::Voice,
        Kind::RandomPerRoute => Scope::Voice,
        Kind::VoiceLoad => Scope::Global,
        Kind::Constant => Scope::Global,
    }
}

fn usual_range(kind: Kind) -> Range
    ensures { result ≡ usual_range kind }
{
    match kind {
        Kind::Signal => Range::Unipolar,
        Kind::Audio => Range::Bipolar,
        Kind::Held => Range::Unipolar,
        Kind::Velocity => Range::Unipolar,
        Kind::Key => Range::Unipolar,
        Kind::ReleaseVelocity => Range::Unipolar,
        Kind::Random => Range::Unipolar,
        Kind::Alternate { inverse: _ } => Range::Unipolar,
        Kind::RandomPerRoute => Range::Unipolar,
        Kind::VoiceLoad => Range::Unipolar,
        Kind::Constant => Range::Unipolar,
    }
}

impl SourceInfo {
    // The kind with its usual scope and range.
    pub fn new(kind: Kind) -> SourceInfo
        ensures { result ≡ usual_info kind }
    {
        SourceInfo {
            kind,
            scope: usual_scope(kind),
            range: usual_range(kind),
        }
    }

    // Per voice, unless the engine makes the kind.
    pub fn voice(mut self) -> SourceInfo
        ensures { result ≡ info_voice self }
    {
        if !is_engine_owned(self.kind) {
            self.scope = Scope::Voice;
        }
        self
    }

    // Global, unless the engine makes the kind.
    pub fn global(mut self) -> SourceInfo
        ensures { result ≡ info_global self }
    {
        if !is_engine_owned(self.kind) {
            self.scope = Scope::Global;
        }
        self
    }

    // Bipolar.
    pub fn bipolar(mut self) -> SourceInfo
        ensures { result ≡ info_bipolar self }
    {
        self.range = Range::Bipolar;
        self
    }
}

// ---- the standard sources, entry by entry

// The registry with one entry more; where it is full, the count alone grows.
fn push(sources: Sources, source: Source) -> Sources
    ensures { result ≡ with_entry sources source }
{
    let n = len(sources);
    if n < SOURCES {
        return with_entry(sources, source);
    }
    let mut more = sources;
    more.count = n + 1;
    more
}

// The registry with a source under its key.
fn with_source(sources: Sources, key: &[u8], info: SourceInfo) -> Sources
    requires { length key.now ≤ most_key_bytes }
    ensures { result ≡ with_source key.now info sources }
{
    push(sources, new_entry(key, info))
}

// The registry with a source whose key has a number in it.
fn with_number(sources: Sources, word: &[u8], after: &[u8], info: SourceInfo, n: usize) -> Sources
    requires { (n < 1000) × (length word.now + length after.now ≤ 29) }
    ensures { result ≡ with_source (numbered_key word.now after.now n) info sources }
{
    let blank = source_key::blank();
    let begun = source_key::put_word(blank, word);
    let numbered = source_key::put_number(begun, n);
    let text = source_key::put_word(numbered, after);
    let key = text.bytes;
    let source = Source {
        key,
        len: text.len,
        kind: info.kind,
        scope: info.scope,
        range: info.range,
    };
    push(sources, source)
}

// The sources word 1 to word `count`.
fn with_numbered(
    sources: Sources,
    word: &[u8],
    after: &[u8],
    info: SourceInfo,
    count: usize,
) -> Sources
    requires { (count ≤ most_sources) × (length word.now + length after.now ≤ 29) }
    ensures { result ≡ with_numbered word.now after.now info count sources }
{
    let mut next = sources;
    for i in 0..count {
        next = with_number(next, word, after, info, i + 1);
    }
    next
}

// The LFO `n` and its Y output.
fn with_lfo(sources: Sources, n: usize) -> Sources
    requires { n < 1000 }
    ensures { result ≡ lfo_pair n sources }
{
    let info = SourceInfo::new(Kind::Signal);
    let x = with_number(sources, b"lfo", b"", info, n);
    with_number(x, b"lfo", b"_y", info, n)
}

// The LFOs 1 to `count`, each with its Y output. A step is two entries here and one in `with_numbered`; one loop for
// both would take a closure with a contract of its own, and be no plainer.
fn with_lfos(sources: Sources, count: usize) -> Sources
    requires { count ≤ most_sources }
    ensures { result ≡ with_lfos count sources }
{
    let mut next = sources;
    for i in 0..count {
        next = with_lfo(next, i + 1);
    }
    next
}

// A source of the kind's usual scope and range.
fn with_usual(sources: Sources, key: &[u8], kind: Kind) -> Sources
    requires { length key.now ≤ most_key_bytes }
    ensures { result ≡ with_source key.now (usual_info kind) sources }
{
    let info = SourceInfo::new(kind);
    with_source(sources, key, info)
}

// What a held source per voice is.
fn held_info() -> SourceInfo
    ensures { result ≡ held_info }
{
    SourceInfo::new(Kind::Held).voice()
}

// The sources of notes and pressure.
fn with_note_sources(sources: Sources) -> Sources
    ensures { result ≡ with_note_sources sources }
{
    let poly = held_info();
    let a = with_usual(sources, b"velocity", Kind::Velocity);
    let b = with_usual(a, b"key", Kind::Key);
    let c = with_usual(b, b"channel_pressure", Kind::Held);
    let d = with_source(c, b"poly_pressure", poly);
    let e = with_usual(d, b"random1", Kind::Random);
    let f = with_usual(e, b"random2", Kind::Random);
    let g = with_usual(f, b"alternate1", Kind::Alternate { inverse: false });
    with_usual(g, b"alternate2", Kind::Alternate { inverse: true })
}

// The controllers, the release velocity and the constant.
fn with_controllers(sources: Sources) -> Sources
    ensures { result ≡ with_controllers sources }
{
    let bend = SourceInfo::new(Kind::Held).bipolar();
    let held = held_info();
    let x = held.bipolar();
    let a = with_usual(sources, b"mod_wheel", Kind::Held);
    let b = with_source(a, b"pitch_bend", bend);
    let c = with_source(b, b"mpe_x", x);
    let d = with_source(c, b"mpe_y", held);
    let e = with_source(d, b"mpe_z", held);
    let f = with_usual(e, b"release_velocity", Kind::ReleaseVelocity);
    with_usual(f, b"constant", Kind::Constant)
}

// The sequence values and, where there are any, the index.
fn with_sequence(sources: Sources, count: usize) -> Sources
    requires { count ≤ most_sources }
    ensures { result ≡ with_sequence count sources }
{
    if count == 0 {
        return sources;
    }
    let info = held_info();
    let values = with_numbered(sources, b"seq_value", b"", info, count);
    with_source(values, b"seq_index", info)
}

// The audio source whose key stands from `at` up to `end`.
fn with_audio_key(sources: Sources, bytes: &[u8], at: usize, end: usize) -> Sources
    requires { (at ≤ end) × (end ≤ length bytes.now) × (end ≤ at + most_key_bytes) }
    ensures { result ≡ with_source (part bytes.now at end) audio_info sources }
{
    with_usual(sources, &bytes[at..end], Kind::Audio)
}

// The audio sources.
fn with_audio(sources: Sources, bytes: &[u8], lengths: &[usize]) -> Sources
    requires { (total lengths.now ≤ length bytes.now) × (any_long lengths.now ≡ false) }
    ensures { result ≡ with_audio (audio_keys bytes.now lengths.now) sources }
{
    let mut next = sources;
    let mut start = 0usize;
    for i in 0..lengths.len() {
        let end = start + lengths[i];
        let more = with_audio_key(next, bytes, start, end);
        next = more;
        start = end;
    }
    next
}

// ---- what refuses the standard sources

// Whether the key is a sequence value's or, where there are any, the index's.
fn is_sequence(key: &[u8], n: usize) -> bool
    ensures { result ≡ sequence_key n key.now }
{
    if source_key::is_numbered(key, b"seq_value", b"", n) {
        return true;
    }
    if n == 0 {
        return false;
    }
    let index: &[u8] = b"seq_index";
    key == index
}

// The standard sources whose keys have no number.
fn fixed_sources() -> Sources
    ensures { result ≡ fixed_sources }
{
    let notes = with_note_sources(new());
    let controllers = with_controllers(notes);
    let load = with_usual(controllers, b"voice_load", Kind::VoiceLoad);
    with_usual(load, b"random_route", Kind::RandomPerRoute)
}

// Whether a source of the registry has the key.
fn has_key(sources: Sources, key: &[u8]) -> bool
    ensures { result ≡ has key.now sources }
{
    find_key(sources, key).is_some()
}

// Whether the key is a standard one for these counts.
fn is_standard(counts: Counts, fixed: Sources, key: &[u8]) -> bool
    requires { fixed ≡ fixed_sources }
    ensures { result ≡ standard_key counts key.now }
{
    if source_key::is_numbered(key, b"env", b"", counts.envelopes) {
        return true;
    }
    if source_key::is_numbered(key, b"lfo", b"", counts.lfos) {
        return true;
    }
    if source_key::is_numbered(key, b"lfo", b"_y", counts.lfos) {
        return true;
    }
    if source_key::is_numbered(key, b"macro", b"", counts.macros) {
        return true;
    }
    if is_sequence(key, counts.sequence_values) {
        return true;
    }
    has_key(fixed, key)
}

// Whether one of the keys from number `first` on, which starts at byte `from`, is this key.
fn any_same(key: &[u8], bytes: &[u8], from: usize, lengths: &[usize], first: usize) -> bool
    requires { (from ≤ length bytes.now) × (first ≤ length lengths.now) }
    ensures { result ≡ any_same key.now
        (audio_keys (drop from bytes.now) (drop first lengths.now)) }
{
    let mut at = from;
    for i in first..lengths.len() {
        let n = lengths[i];
        if bytes.len() - at < n {
            return false;
        }
        let end = at + n;
        if key == &bytes[at..end] {
            return true;
        }
        at = end;
    }
    false
}

// Whether the key from `at` up to `end` is a standard one, or one of those from number `next` on.
fn key_clashes(
    counts: Counts,
    fixed: Sources,
    bytes: &[u8],
    at: usize,
    end: usize,
    lengths: &[usize],
    next: usize,
) -> bool
    requires { (fixed ≡ fixed_sources) × (at ≤ end) × (end ≤ length bytes.now) × (next ≤ length lengths.now) }
    ensures { result ≡ (standard_key counts (part bytes.now at end)
        || any_same (part bytes.now at end)
        (audio_keys (drop end bytes.now) (drop next lengths.now))) }
{
    let key = &bytes[at..end];
    if is_standard(counts, fixed, key) {
        return true;
    }
    any_same(key, bytes, end, lengths, next)
}

// Whether an audio key equals another one, or a standard key.
fn any_clash(counts: Counts, fixed: Sources, bytes: &[u8], lengths: &[usize]) -> bool
    requires { fixed ≡ fixed_sources }
    ensures { result ≡ clashes counts (audio_keys bytes.now lengths.now) }
{
    let mut start = 0usize;
    for i in 0..lengths.len() {
        let n = lengths[i];
        if bytes.len() - start < n {
            return false;
        }
        let end = start + n;
        if key_clashes(counts, fixed, bytes, start, end, lengths, i + 1) {
            return true;
        }
        start = end;
    }
    false
}

fn one_if(n: usize) -> usize
    ensures { (result ≡ cond (eqb n 0) 0 1) × (result ≤ 1) }
{
    if n == 0 {
        return 0;
    }
    1
}

// How many entries there would be.
fn standard_count(counts: Counts, audio: usize) -> usize
    requires { (counts.envelopes ≤ most_sources) × (counts.lfos ≤ most_sources) × (counts.macros ≤ most_sources)
        × (counts.sequence_values ≤ most_sources) × (audio ≤ most_sources) }
    ensures { result ≡ standard_count counts audio }
{
    let a = 17 + counts.envelopes + 2 * counts.lfos;
    let b = counts.macros + audio + counts.sequence_values;
    a + b + one_if(counts.sequence_values)
}

// Whether there would be more entries than a registry has.
fn too_many(counts: Counts, audio: usize) -> bool
    ensures { result ≡ ltb most_sources (standard_count counts audio) }
{
    if SOURCES < counts.envelopes {
        return true;
    }
    if SOURCES < counts.lfos {
        return true;
    }
    if SOURCES < counts.macros {
        return true;
    }
    if SOURCES < counts.sequence_values {
        return true;
    }
    if SOURCES < audio {
        return true;
    }
    SOURCES < standard_count(counts, audio)
}

// Whether the lengths add up to more than `have`.
fn adds_up_above(have: usize, lengths: &[usize]) -> bool
    ensures { result ≡ ltb have (total lengths.now) }
{
    let mut left = have;
    for i in 0..lengths.len() {
        let n = lengths[i];
        if left < n {
            return true;
        }
        left -= n;
    }
    false
}

// Whether a length is above 32.
fn any_long(lengths: &[usize]) -> bool
    ensures { result ≡ any_long lengths.now }
{
    lengths.iter().any(|n| KEY_BYTES < *n)
}

// ---- the standard sources

// Whether `standard` makes these, or why it does not.
fn check_standard(counts: Counts, keys: &[u8], lengths: &[usize]) -> Result<(), Refusal>
    ensures { code_of result ≡ judged (standard_rows counts keys.now lengths.now) }
{
    let clash = any_clash(counts, fixed_sources(), keys, lengths);
    refusal::when(clash, Refusal::Registered)?;
    refusal::when(too_many(counts, lengths.len()), Refusal::Full)?;
    refusal::when(adds_up_above(keys.len(), lengths), Refusal::Memory)?;
    refusal::when(any_long(lengths), Refusal::Length)
}

// The standard entries in their order.
fn all_sources(counts: Counts, keys: &[u8], lengths: &[usize]) -> Sources
    requires { judged (standard_rows counts keys.now lengths.now) ≡ 0 }
    ensures { result ≡ all_sources counts (audio_keys keys.now lengths.now) }
{
    let signal = SourceInfo::new(Kind::Signal);
    let held = SourceInfo::new(Kind::Held);
    let a = with_numbered(new(), b"env", b"", signal, counts.envelopes);
    let b = with_note_sources(with_lfos(a, counts.lfos));
    let c = with_numbered(b, b"macro", b"", held, counts.macros);
    let d = with_audio(with_controllers(c), keys, lengths);
    let e = with_usual(d, b"voice_load", Kind::VoiceLoad);
    let f = with_sequence(e, counts.sequence_values);
    with_usual(f, b"random_route", Kind::RandomPerRoute)
}

// The standard sources for these counts and audio keys.
pub fn standard(counts: Counts, keys: &[u8], lengths: &[usize]) -> Result<Sources, Refusal>
    ensures { made_said result ≡ standard_sources counts keys.now lengths.now }
{
    check_standard(counts, keys, lengths)?;
    Ok(all_sources(counts, keys, lengths))
}

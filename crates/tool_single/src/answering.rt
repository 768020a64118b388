//! The answer to a question to an open store.
ghost use Rattle.std.specs.Prelude.{◌≡◌, ◌≢◌, ◌≤◌, ℕ, true, List, ◌++◌, ◌∷◌, [], Some, Ok, Err, IfOk, IfErr, OnOk, IsSomeAnd, string_bytes};
ghost use Rattle.std.specs.List.{flat_map};
ghost use Rattle.std.specs.Option.{option_map};
ghost use Rattle.kdb_outside.specs.Faults.{HasRisen};
ghost use Rattle.kdb_outside.specs.Frames.{GoesOn};
ghost use Rattle.model_maps.specs.Limits.{IsLimited};
ghost use Rattle.tool_commands.specs.StepView.{report_of, seen_step};
ghost use Rattle.mounted_files.specs.declared.refusals.GetFault.TheVariants.{Memory as OutOfMemory};
ghost use Rattle.mounted_files.specs.Whole.{relative};
ghost use Rattle.general_words.specs.Memory.{UnlessMemory};
ghost use Rattle.tool_single.specs.Alone.{got_alone};
ghost use Rattle.tool_single.specs.Answer.{done, refused, tells};
ghost use Rattle.tool_commands.specs.Report.{IsEnd, warned};
ghost use Rattle.tool_commands.specs.Step.{TellsEnd};
ghost use Rattle.tool_single.specs.Untold.{IsStatusOf};
ghost use Rattle.tool_single.specs.Answers.{AnswersBelow, AnswersIn, AnswersGot, AnswersText, AnswersStep, file_told, mounts_told, owner_in, line_of_get};
ghost use Rattle.tool_single.specs.Serving.{HasFetched, IsNew, IsOpen, MayRefuse, Serving};
ghost use Rattle.tool_commands.specs.Commands.{parent_of, row_of};
ghost use Rattle.key_name.specs.Joining.{joined};
ghost use Rattle.model_names.specs.WellFormed.{IsName};
ghost use Rattle.model_names.specs.declared.namespaces.Namespace.TheVariants.{Cascading};
ghost use Rattle.mounted_files.specs.Sound.{AreNames};
ghost use Rattle.tool_commands.specs.Lines.{counting, line_of_mount};
ghost use Rattle.store_lines.specs.Lines.{not_storable};
ghost use Rattle.tool_words.specs.Request.{NamesFiles};
ghost use Rattle.tool_words.specs.RequestView.{action_of, question_of};
ghost use Rattle.model_names.specs.Namespaces.{has_files};

use crate::answers::Stop;
use crate::checking::check_keys;
use crate::setting::set_keys;
use all_formats::AllFormats;
use kdb_outside::{Disk, FileName, Kind};
use kdb_text::shown;
use key_meta::Memory;
use key_name::{KeyName, NameFault, owner};
use key_set::KeySet;
use mount_table::Mount;
use mounted_files::{GetFault, Mounted};
use regex_check::Patterns;
use std::alloc::{AllocError, Global};
use storage_api::{Formats, WriteRefusal};
use store_core::{Core, Plan};
use store_lines::{bad_file, not_storable, too_heavy, too_long};
use store_verdict::Record;
use tool_commands::{REFUSED, Report, Step, parent_of, step, tell, tell_bytes, warn};
use tool_words::{Action, Question};

/// The answer to a question to an open store. What it stores is committed by then.
pub fn answer_in<D: Disk, P: Patterns + Drop>(
    alloc: Global,
    plan: &Plan<AllFormats>,
    core: &mut Core<D, P>,
    question: Question<'_>,
) -> Result<Report, Stop>
    requires names { NamesFiles (question_of question) }
    requires open { IsOpen plan.now core.old }
    ensures serving { Serving D.Disk plan.now.mounted (AnswersIn (MayRefuse result (P.refusals core.old.patterns) (P.refusals core.new.patterns)) plan.now.mounted (question_of question.entry)) result core.old core.new }
    ensures status { IfOk result (λ report. IsStatusOf (question_of question.entry) report.status) }
    ensures cause { result ≡ Err Stop.DiskFault
        → HasRisen (D.faults core.old.journal.disk) (D.faults core.new.journal.disk) }
    ensures goes { GoesOn D.Disk core.old.journal.disk core.new.journal.disk }
    ensures later { P.refusals core.old.patterns ≤ P.refusals core.new.patterns }
{
    let mounted = plan.mounted();
    match question {
        Question::Mounts => Ok(tell_mounts(alloc, mounted)?),
        Question::FileOf(name) => Ok(tell_file(alloc, mounted, &name)?),
        Question::TextOf { name, kind } => Ok(tell_text(alloc, plan, core, &name, kind)?),
        Question::ViolationsOf(name) => Ok(check_keys(alloc, plan, core, &name)?),
        Question::On { name, action } => act(alloc, plan, core, &name, action),
    }
}

/// `mounts`: a line for each mount.
fn tell_mounts(alloc: Global, mounted: &Mounted) -> Result<Report, Memory>
    ensures told { IfOk result (λ report. tells (report_of report) ≡ mounts_told mounted.now) }
    ensures status { IfOk result (λ report. report.status ≡ 0) }
{
    let lines = lines_of_mounts(alloc, mounted)?;
    Ok(tell(alloc, lines))
}

/// The lines of all mounts, in the order of the table.
fn lines_of_mounts(alloc: Global, mounted: &Mounted) -> Result<String, Memory>
    ensures { IfOk result (λ lines. string_bytes lines ≡ flat_map (λ file. line_of_mount file.mount) mounted.now) }
{
    let table = mounted.table();
    let mut lines = String::new(alloc);
    for i in 0..table.len() {
        let Some(mount) = table.mount(i) else {
            unreachable!()
        };
        push_line_of_mount(alloc, &mut lines, mount)?;
    }
    Ok(lines)
}

/// Adds the line of a mount: its mountpoint, its file, the word of its format, and how its conflicts are counted.
fn push_line_of_mount(alloc: Global, lines: &mut String, mount: &Mount) -> Result<(), Memory>
    ensures { OnOk result (string_bytes lines.new ≡ string_bytes lines.old ++ line_of_mount mount.now) }
{
    let at = shown(alloc, &mount.at)?;
    let file = mount.file.text();
    let word = mount.kind.word();
    let counting = counting(mount.by_key);
    let line = format!(in alloc; "{at} {file} {word}{counting}\n")?;
    lines.push_str(&line)
}

/// How the line of a mount tells that conflicts are counted by key.
fn counting(by_key: bool) -> &'static str
    ensures { result.now ≡ counting by_key }
{
    if by_key { " keys" } else { "" }
}

/// `file`: the file of the mount that owns a key.
fn tell_file(alloc: Global, mounted: &Mounted, name: &KeyName) -> Result<Report, Memory>
    requires { has_files name.now.namespace ≡ true }
    ensures told { IfOk result (λ report. IsSomeAnd (owner_in mounted.now name.now) (λ file. tells (report_of report) ≡ file_told file)) }
    ensures status { IfOk result (λ report. report.status ≡ 0) }
{
    let mount = owner_in(mounted, name);
    tell_name_of(alloc, &mount.file)
}

fn tell_name_of(alloc: Global, file: &FileName) -> Result<Report, Memory>
    ensures told { IfOk result (λ report. tells (report_of report) ≡ done (file.now ++ 10 ∷ [])) }
    ensures status { IfOk result (λ report. report.status ≡ 0) }
{
    let file = file.text();
    let out = format!(in alloc; "{file}\n")?;
    Ok(tell(alloc, out))
}

/// `export`: what a file at a name would hold, as its text in a format.
fn tell_text<D: Disk, P: Patterns + Drop>(
    alloc: Global,
    plan: &Plan<AllFormats>,
    core: &Core<D, P>,
    name: &KeyName,
    kind: Kind,
) -> Result<Report, Memory>
    requires { IsOpen plan.now core.now }
    ensures answers { IfOk result (λ report. AnswersBelow name.now kind (got_alone plan.now.mounted name.now) (tells (report_of report))) }
    ensures status { IfOk result (λ report. IsEnd [] report.status) }
{
    let mut rec = new_record(alloc, plan)?;
    match fetch(alloc, plan, core, &mut rec, name) {
        Ok(keys) => {
            let found = keys_below(alloc, plan.mounted(), name, &keys)?;
            tell_keys(alloc, name, kind, &found)
        }
        Err(fault) => refuse_get(alloc, fault),
    }
}

/// The keys at or below a name, of those that a get of it gave, under the names that lead there. They are within the
/// limits of a file.
fn keys_below(
    alloc: Global,
    mounted: &Mounted,
    name: &KeyName,
    keys: &KeySet,
) -> Result<KeySet, Memory>
    requires { got_alone mounted.now name.now ≡ Ok keys.now }
    ensures is { IfOk result (λ found. found ≡ relative name.now keys.now) }
    ensures limited { IfOk result IsLimited }
    ensures names { IfOk result (AreNames name.now) }
{
    // How long the texts of the files are and what their keys weigh is known where they are asked for.
    let _files = mounted.files();
    Ok(keys.relative_to(alloc, name)?)
}

/// The text of some keys in a format, or the refusal of the first that the format can't hold.
fn tell_keys(alloc: Global, name: &KeyName, kind: Kind, keys: &KeySet) -> Result<Report, Memory>
    requires limited { IsLimited keys.now }
    requires whole { AreNames name.now keys.now }
    ensures answers { IfOk result (λ report. AnswersText name.now kind keys.now (tells (report_of report))) }
    ensures status { IfOk result (λ report. IsEnd [] report.status) }
{
    match AllFormats.write(alloc, kind, keys) {
        Ok(bytes) => Ok(tell_bytes(alloc, bytes)),
        Err(WriteRefusal::NotStorable { key }) => refuse_key(alloc, name, &key),
        Err(WriteRefusal::Memory) => Err(AllocError),
    }
}

/// The refusal of a key that a format can't hold, whose whole name is told.
fn refuse_key(alloc: Global, name: &KeyName, key: &KeyName) -> Result<Report, Memory>
    requires cascading { key.now.namespace ≡ Cascading }
    requires name { IsName (joined name.now key.now) }
    ensures told { IfOk result (λ report. tells (report_of report) ≡ refused 5 (not_storable name.now (joined name.now key.now))) }
    ensures status { IfOk result (λ report. report.status ≡ 5) }
{
    match name.join(key) {
        Ok(key) => warn(alloc, REFUSED, &not_storable(alloc, name, &key)?),
        Err(NameFault::Memory) => Err(AllocError),
        Err(_) => unreachable!(),
    }
}

/// The mount that owns a key. Each table has one for a key in files.
fn owner_in<'a>(mounted: &'a Mounted, name: &KeyName) -> &'a Mount
    requires { has_files name.now.namespace ≡ true }
    ensures { Some result.now ≡ option_map (λ file. file.mount) (owner_in mounted.now name.now) }
{
    let table = mounted.table();
    let Some(i) = owner(table.points(), name) else {
        unreachable!()
    };
    let Some(mount) = table.mount(i) else {
        unreachable!()
    };
    mount
}

/// The answer to an action on a key.
fn act<D: Disk, P: Patterns + Drop>(
    alloc: Global,
    plan: &Plan<AllFormats>,
    core: &mut Core<D, P>,
    name: &KeyName,
    action: Action<'_>,
) -> Result<Report, Stop>
    requires open { IsOpen plan.now core.old }
    ensures serving { Serving D.Disk plan.now.mounted (AnswersGot (MayRefuse result (P.refusals core.old.patterns) (P.refusals core.new.patterns)) plan.now.mounted name.now (action_of action.entry) (got_alone plan.now.mounted (parent_of name.now (action_of action.entry)))) result core.old core.new }
    ensures status { IfOk result (λ report. IsEnd (row_of name.now (action_of action.entry)).statuses report.status) }
    ensures cause { result ≡ Err Stop.DiskFault
        → HasRisen (D.faults core.old.journal.disk) (D.faults core.new.journal.disk) }
    ensures goes { GoesOn D.Disk core.old.journal.disk core.new.journal.disk }
    ensures later { P.refusals core.old.patterns ≤ P.refusals core.new.patterns }
{
    let parent = parent_of(alloc, name, &action)?;
    let mut rec = new_record(alloc, plan)?;
    match fetch(alloc, plan, core, &mut rec, &parent) {
        Ok(keys) => {
            let step = step(alloc, name, action, keys)?;
            take_step(alloc, plan, core, &mut rec, &parent, step)
        }
        Err(fault) => Ok(refuse_get(alloc, fault)?),
    }
}

/// The record of the command's handle, which has fetched nothing.
pub fn new_record(alloc: Global, plan: &Plan<AllFormats>) -> Result<Record, Memory>
    ensures { IfOk result (IsNew plan.now.mounted) }
{
    Record::new(alloc, 0, plan.table().len(), KeySet::new(alloc))
}

/// The keys of a parent, which the command's handle gets first of all.
pub fn fetch<D: Disk, P: Patterns + Drop>(
    alloc: Global,
    plan: &Plan<AllFormats>,
    core: &Core<D, P>,
    rec: &mut Record,
    parent: &KeyName,
) -> Result<KeySet, GetFault>
    requires open { IsOpen plan.now core.now }
    requires new { IsNew plan.now.mounted rec.old }
    ensures keys { IfOk result (λ keys. got_alone plan.now.mounted parent.now ≡ Ok keys) }
    ensures fault { IfErr result (λ why. UnlessMemory OutOfMemory (got_alone plan.now.mounted parent.now ≡ Err why) why) }
    ensures fetched { OnOk result (HasFetched plan.now.mounted parent.now rec.new) }
{
    match core.get(alloc, plan, rec, parent) {
        Ok(got) => Ok(got.keys),
        Err(fault) => Err(fault),
    }
}

/// The answer where keys can't be got.
pub fn refuse_get(alloc: Global, fault: GetFault) -> Result<Report, Memory>
    ensures refused { IfOk result (λ report. (fault ≢ OutOfMemory) × (report_of report ≡ warned 5 (line_of_get fault))) }
    ensures status { IfOk result (λ report. report.status ≡ 5) }
{
    let text = line_of_get(alloc, &fault)?;
    warn(alloc, REFUSED, text.as_str())
}

/// The line of what refuses a get. Want of memory has none.
fn line_of_get(alloc: Global, fault: &GetFault) -> Result<String, Memory>
    ensures text { IfOk result (λ text. string_bytes text ≡ line_of_get fault.now) }
    ensures memory { OnOk result (fault.now ≢ OutOfMemory) }
{
    match fault {
        GetFault::BadFile { mount, line } => bad_file(alloc, mount, *line),
        GetFault::TooLong { mount, bytes } => too_long(alloc, mount, *bytes),
        GetFault::TooHeavy { mount, weight } => too_heavy(alloc, mount, *weight),
        GetFault::Memory => Err(AllocError),
    }
}

/// The answer by what a command makes of the keys that it got.
fn take_step<D: Disk, P: Patterns + Drop>(
    alloc: Global,
    plan: &Plan<AllFormats>,
    core: &mut Core<D, P>,
    rec: &mut Record,
    parent: &KeyName,
    step: Step,
) -> Result<Report, Stop>
    requires open { IsOpen plan.now core.old }
    requires fetched { HasFetched plan.now.mounted parent.now rec.old }
    ensures serving { Serving D.Disk plan.now.mounted (AnswersStep (MayRefuse result (P.refusals core.old.patterns) (P.refusals core.new.patterns)) plan.now.mounted parent.now (seen_step step)) result core.old core.new }
    ensures status { (own : List ℕ) → TellsEnd own (seen_step step) → IfOk result (λ report. IsEnd own report.status) }
    ensures cause { result ≡ Err Stop.DiskFault
        → HasRisen (D.faults core.old.journal.disk) (D.faults core.new.journal.disk) }
    ensures goes { GoesOn D.Disk core.old.journal.disk core.new.journal.disk }
    ensures later { P.refusals core.old.patterns ≤ P.refusals core.new.patterns }
{
    match step {
        Step::Tells(report) => Ok(report),
        Step::Sets { keys, out } => set_keys(alloc, plan, core, rec, parent, &keys, out),
    }
}

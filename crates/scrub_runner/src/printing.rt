// What is printed of a scrub.
ghost use Rattle.std.specs.Prelude.{◌≡◌, ◌≤◌, ◌++◌, option_map};
ghost use Rattle.vault_types.specs.Texts.{damage_text};
ghost use Rattle.store_model.specs.World.{IsPrinted, report_text};
ghost use Rattle.script_words.specs.Damages.{damage_word};
ghost use Rattle.scrub_model.specs.Words.{health_word, damage_line, damage_lines};

use payload_health::{Bad, Findings, Health};
use report_printer::{print_all, write_all};
use script_words::Damage;
use vault_traits::{Failed, Sink};
use vault_types::{Answer, Fault, Id};

// What is wrong with a payload, where something is.
fn damage_of(health: Health) -> Option<Damage>
    ensures { option_map damage_word result ≡ health_word health }
{
    match health {
        Health::Good => None,
        Health::Absent => Some(Damage::Absent),
        Health::Length { .. } => Some(Damage::Length),
        Health::Sum { .. } => Some(Damage::Sum),
        Health::Chunk { row, .. } => Some(Damage::Chunk(row)),
    }
}

fn print_damage<O: Sink>(id: Id, damage: Damage, out: &mut O) -> Option<Fault>
    ensures printed { IsPrinted (damage_text id (damage_word damage)) (O.told out.old) (O.told out.new) result }
    ensures later { (O.told out.old).faults ≤ (O.told out.new).faults }
{
    let mut line = [0; 256];
    let len = damage.text(id, &mut line);
    match write_all(&line[..len], out) {
        Ok(()) => None,
        Err(Failed) => Some(Fault::WriteFault(out.faults())),
    }
}

// Prints the line of a container, unless it is good.
fn print_bad<O: Sink>(bad: &Bad, out: &mut O) -> Option<Fault>
    ensures printed { IsPrinted (damage_line bad.now) (O.told out.old) (O.told out.new) result }
    ensures later { (O.told out.old).faults ≤ (O.told out.new).faults }
{
    match damage_of(bad.health) {
        None => None,
        Some(damage) => print_damage(bad.id, damage, out),
    }
}

// Prints the lines of containers one after another. Where the sink fails, that is the fault, and a front is written.
fn print_each<O: Sink>(damaged: &[Bad], out: &mut O) -> Option<Fault>
    ensures printed { IsPrinted (damage_lines damaged.now) (O.told out.old) (O.told out.new) result }
    ensures later { (O.told out.old).faults ≤ (O.told out.new).faults }
{
    for bad in damaged {
        if let Some(fault) = print_bad(bad, out) {
            return Some(fault);
        }
    }
    None
}

/// Prints the lines of the containers that are damaged, and the report behind them. It takes no memory.
pub(crate) fn print_findings<O: Sink>(
    found: &Findings,
    answers: &[Answer],
    out: &mut O,
) -> Option<Fault>
    ensures { IsPrinted (damage_lines found.now.damaged ++ report_text answers.now)
        (O.told out.old) (O.told out.new) result }
{
    match print_each(found.damaged.as_slice(), out) {
        Some(fault) => Some(fault),
        None => print_all(answers, out),
    }
}

//! The script of `fill`.
ghost use Rattle.std.specs.Prelude.{◌≡◌, ◌++◌, codes, decimal, map, IfOk, OnOk};
ghost use Rattle.std.specs.List.{range_with_len};
ghost use Rattle.vault_types.specs.Generator.{fill_lines, fill_config};

use std::alloc::Global;
use vault_types::text::Text;
use vault_types::{JobConfig, Line, Memory, Rewrite, Version};

/// The script of `fill` with some versions: a backup of each, a restore of each, and the deletion of the older half. Its
/// lines are of set 0.
pub fn fill_script(alloc: Global, versions: u32) -> Result<Vec<Line>, Memory>
    ensures { IfOk result (λ lines. lines.items ≡ fill_lines versions) }
{
    let mut lines = Vec::new(alloc);
    add_backups(alloc, versions, &mut lines)?;
    add_restores(alloc, versions, &mut lines)?;
    lines.push(Line::Delete {
        set: 0,
        through: versions / 2,
    })?;
    Ok(lines)
}

fn add_backups(alloc: Global, versions: u32, lines: &mut Vec<Line>) -> Result<(), Memory>
    ensures { OnOk result (lines.new.items ≡ lines.old.items
        ++ map (λ v. Line.Backup 0 (codes "gen-" ++ decimal v) fill_config) (range_with_len 1 versions)) }
{
    for earlier in 0..versions {
        lines.push(backup_of(alloc, earlier + 1)?)?;
    }
    Ok(())
}

fn add_restores(alloc: Global, versions: u32, lines: &mut Vec<Line>) -> Result<(), Memory>
    ensures { OnOk result (lines.new.items ≡ lines.old.items
        ++ map (λ v. Line.Restore 0 v (codes "out-" ++ decimal v) 16) (range_with_len 1 versions)) }
{
    for earlier in 0..versions {
        lines.push(restore_of(alloc, earlier + 1)?)?;
    }
    Ok(())
}

fn backup_of(alloc: Global, version: Version) -> Result<Line, Memory>
    ensures { IfOk result (λ line. line ≡ Line.Backup 0 (codes "gen-" ++ decimal version) fill_config) }
{
    let name = format!(in alloc; "gen-{version}")?;
    Ok(Line::Backup {
        set: 0,
        name: Text::from_string(name),
        config: JobConfig {
            rewrite: Rewrite::Both,
            ..JobConfig::standard()
        },
    })
}

fn restore_of(alloc: Global, version: Version) -> Result<Line, Memory>
    ensures { IfOk result (λ line. line ≡ Line.Restore 0 version (codes "out-" ++ decimal version) 16) }
{
    let name = format!(in alloc; "out-{version}")?;
    Ok(Line::Restore {
        set: 0,
        version,
        name: Text::from_string(name),
        cache: 16,
    })
}

// The rules of the options (pgBackRest configuration reference, "Repository Options").
ghost use Rattle.std.specs.Prelude.{◌≡◌};
ghost use Rattle.cmd_expire.specs.Rules.{full_rule, kind_by, rules_by};

use base_model::BackupKind;
use expire_rules::{FullRule, Rules};
use options_read::{KindWord, Options, RetentionWord};

// How many full backups are kept, or for how many days.
fn full_rule(number: Option<u32>, counts: RetentionWord) -> FullRule
    ensures { result ≡ full_rule number counts }
{
    match (number, counts) {
        (None, _) => FullRule::Unset,
        (Some(n), RetentionWord::Count) => FullRule::Count(n),
        (Some(n), RetentionWord::Time) => FullRule::Days(n),
    }
}

/// The kind that a value names.
pub fn kind_by(word: KindWord) -> BackupKind
    ensures { result ≡ kind_by word }
{
    match word {
        KindWord::Full => BackupKind::Full,
        KindWord::Diff => BackupKind::Diff,
        KindWord::Incr => BackupKind::Incr,
    }
}

/// The rules of the options `repo1-retention-*`.
pub fn rules_of(options: &Options) -> Rules
    ensures { result ≡ rules_by options.now }
{
    Rules {
        full: full_rule(
            options.repo1_retention_full,
            options.repo1_retention_full_type,
        ),
        diff: options.repo1_retention_diff,
        archive: options.repo1_retention_archive,
        archive_kind: kind_by(options.repo1_retention_archive_type),
    }
}

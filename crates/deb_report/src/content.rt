//! What a report tells, whatever its form.

ghost use Rattle.std.specs.Prelude.{◌≡◌, ◌<◌, All, IfOk, IfSome, length, map};
ghost use Rattle.std.specs.Option.{ForSome, option_map};
ghost use Rattle.deb_health.specs.Verdicts.{IsAskedOf, shown_view, SpeaksOf, told_view};
ghost use Rattle.deb_causes.specs.Causes.{IsCauseOf, cause_view};
ghost use Rattle.deb_report.specs.Content.{causes_if, content_of, IsContentOf, before_view, content_view};
ghost use Rattle.run_settings.specs.Settings.{settings_of};

use crate::amends::{Amends, amends_of};
use crate::newly_broken::Before;
use crate::shown::shown_of;
use crate::summary::Counts;
use deb_causes::{Cause, causes_of};
use deb_health::{Shown, Told};
use deb_index::Index;
use run_settings::{Config, Show};
use std::alloc::{AllocError, Global};

/// What a report tells.
#[derive(Drop)]
pub(crate) struct Content<'r> {
    /// The asked places that have a block.
    pub(crate) blocks: Vec<Shown<'r>>,
    pub(crate) counts: Counts,
    /// What became of the packages that were broken in an earlier index; none where none is read.
    pub(crate) lists: Vec<Amends<'r>>,
    /// The causes, where they are asked for.
    pub(crate) causes: Option<Vec<Cause>>,
}

/// The causes of broken packages, where they are asked for.
fn causes_if(
    alloc: Global,
    index: &Index,
    broken: &[Shown<'_>],
    causes: bool,
) -> Result<Option<Vec<Cause>>, AllocError>
    requires { All (λ one. IsAskedOf index.now (shown_view one)) broken.now }
    ensures value { IfOk result (λ told. option_map (λ list. map cause_view list.items) told ≡ causes_if causes index.now (map shown_view broken.now)) }
    ensures within { IfOk result (λ told. IfSome told (λ list. All (λ cause. IsCauseOf index.now (cause_view cause)) list.items)) }
{
    if causes {
        Ok(Some(causes_of(alloc, index, broken)?))
    } else {
        Ok(None)
    }
}

/// What the report on the asked places tells, since these packages were broken, where an earlier index is read.
pub(crate) fn content_of<'r>(
    alloc: Global,
    index: &Index,
    asked: &[u32],
    told: &'r [Told],
    before: Option<&Before<'r>>,
    config: &Config,
) -> Result<Content<'r>, AllocError>
    requires same { length asked.now ≡ length told.now }
    requires places { All (λ place. place < length index.now.packages) asked.now }
    requires within { All (SpeaksOf index.now) (map told_view told.now) }
    requires before { ForSome before (λ before. before.now.index.now ≡ index.now) }
    ensures content { IfOk result (λ content. content_view content ≡
        content_of (settings_of config.now) index.now asked.now (map told_view told.now) (before_view before.entry)) }
    ensures within { IfOk result (IsContentOf index.now) }
{
    let failures = shown_of(alloc, asked, told, Show::Failures)?;
    let broken = failures.as_slice();
    let counts = Counts {
        asked: asked.len(),
        broken: broken.len(),
        newly_broken: None,
    };
    match before {
        None => {
            let blocks = shown_of(alloc, asked, told, config.show)?;
            let causes = causes_if(alloc, index, broken, config.causes)?;
            Ok(Content {
                blocks,
                counts,
                lists: Vec::new(alloc),
                causes,
            })
        }
        Some(before) => {
            let news = before.news_of(alloc, broken)?;
            let lists = amends_of(alloc, index, asked, broken, before.packages)?;
            let causes = causes_if(alloc, index, news.as_slice(), config.causes)?;
            let counts = Counts {
                newly_broken: Some(news.len()),
                ..counts
            };
            Ok(Content {
                blocks: news,
                counts,
                lists,
                causes,
            })
        }
    }
}

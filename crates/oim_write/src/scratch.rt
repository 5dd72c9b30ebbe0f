ghost use Rattle.std.specs.Prelude.{◌≡◌, ◌<◌, length, IfOk, OnOk};
ghost use Rattle.std.specs.Option.{option_copied};
ghost use Rattle.oim_dims.specs.Period.{period_text};

use oim_dims::{Period, write_period};
use oim_names::Text;
use std::alloc::{AllocError, Global};
use std::marker::Model;

/// The number of hash classes of periods. The number is prime, so that days, which are multiples of
/// 86,400 seconds, spread over all classes.
const CLASSES: u64 = 251;

/// A period with its text; `Period::Forever` has no text.
#[derive(Drop)]
struct PeriodText {
    period: Period,
    text: Option<Text>,
}

impl Model for PeriodText {
    ghost use Rattle.std.specs.Prelude.{◌≡◌};
    ghost use Rattle.oim_dims.specs.Period.{period_text};
    ghost use Rattle.oim_dims.specs.declared.period.Period.{Period as APeriod};

    ghost Value = { APeriod };

    ghost view = { λ p. p.period };

    ghost invariant = { λ p. p.text ≡ period_text p.period };
}

impl PeriodText {
    fn text(&self) -> Option<&Text>
        ensures { option_copied result ≡ period_text self.now }
    {
        self.text.as_ref()
    }

    fn turn_to(&mut self, alloc: Global, period: Period) -> Result<(), AllocError>
        ensures { OnOk result (self.new ≡ period) }
    {
        if self.period != period {
            let text = write_period(alloc, &period)?;
            *self = PeriodText { period, text };
        }
        Ok(())
    }
}

/// Caches the text of the last period in each class, since most reports have few periods.
#[derive(Drop)]
pub(crate) struct PeriodTexts {
    texts: Vec<PeriodText>,
}

impl PeriodTexts {
    /// Returns an empty cache. The call does not allocate.
    pub(crate) fn new(alloc: Global) -> PeriodTexts {
        PeriodTexts {
            texts: Vec::new(alloc),
        }
    }

    /// Returns the text of the period, or None for `Period::Forever`. Spells the period unless it is
    /// cached.
    pub(crate) fn text(
        &mut self,
        alloc: Global,
        period: Period,
    ) -> Result<Option<&Text>, AllocError>
        ensures { IfOk result (λ text. option_copied text ≡ period_text period) }
    {
        let class = class_of(&period);
        reach(&mut self.texts, class)?;
        self.texts[class].turn_to(alloc, period)?;
        Ok(self.texts[class].text())
    }
}

fn reach(texts: &mut Vec<PeriodText>, class: usize) -> Result<(), AllocError>
    ensures { OnOk result (class < length texts.new.items) }
{
    while texts.len() <= class {
        texts.push(PeriodText {
            period: Period::Forever,
            text: None,
        })?;
    }
    Ok(())
}

fn class_of(period: &Period) -> usize
    ensures { result < CLASSES }
{
    let mixed = match period {
        Period::Forever => 0,
        Period::Instant(moment) => moment.seconds(),
        Period::Duration(start, end) => {
            let shifted = start.seconds().wrapping_mul(31);
            shifted.wrapping_add(end.seconds())
        }
    };
    (mixed.unsigned_abs() % CLASSES) as usize
}

/// Two buffers that are reused for each fact, to request memory less often. One holds a name, a
/// unit, a label or a number; the other caches the texts of periods.
#[derive(Drop)]
pub struct Scratch {
    pub(crate) alloc: Global,
    pub(crate) text: String,
    pub(crate) periods: PeriodTexts,
}

impl Scratch {
    /// Returns empty buffers. The buffers request memory from `alloc` when they are used.
    pub fn new(alloc: Global) -> Scratch {
        Scratch {
            alloc,
            text: String::new(alloc),
            periods: PeriodTexts::new(alloc),
        }
    }
}

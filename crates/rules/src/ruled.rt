// What a record of the five first lists must keep.
ghost use Rattle.std.specs.Prelude.{◌≡◌, Bool};
ghost use Rattle.parts.specs.Content.{Content, shown};
ghost use Rattle.rules.specs.declared.rule.Rule.{Rule};
ghost use Rattle.rules.specs.Keeping.{kind_keeps, typed_keeps, global_keeps, function_keeps};

use crate::lookup::{atomic, sized};
use crate::rule::Rule;
use content::function::Function;
use content::global::Global;
use content::kind::Kind;
use content::typed::Typed;
use parts::image::Image;
use parts::items::kind_at;

// A rule, and the lists that are to keep it.
#[derive(Clone, Copy)]
pub(crate) struct Ruling<'a> {
    pub(crate) rule: Rule,
    pub(crate) image: &'a Image<'a>,
}

pub(crate) trait Ruled: Copy {
    ghost keeps: { Rule → Content → Self → Bool };

    fn passes(self, ruling: &Ruling) -> bool
        ensures { result ≡ keeps ruling.now.rule (shown ruling.now.image.now) self };
}

impl Ruled for Kind {
    ghost keeps = { kind_keeps };

    fn passes(self, ruling: &Ruling) -> bool {
        let Ruling { rule, image } = *ruling;
        match (rule, self) {
            (Rule::Names, Kind::Pointer { to }) => (to as usize) < image.types.len(),
            (Rule::Names, Kind::Fields { first, count }) => first as usize + count as usize
                <= image.fields.len(),
            _ => true,
        }
    }
}

impl Ruled for Typed {
    ghost keeps = { typed_keeps };

    fn passes(self, ruling: &Ruling) -> bool {
        let Ruling { rule, image } = *ruling;
        match rule {
            Rule::Names => (self.kind as usize) < image.types.len(),
            Rule::Types => atomic(kind_at(image.types, self.kind as usize)),
        }
    }
}

impl Ruled for Global {
    ghost keeps = { global_keeps };

    fn passes(self, ruling: &Ruling) -> bool {
        let Ruling { rule, image } = *ruling;
        match rule {
            Rule::Names => (self.kind as usize) < image.types.len(),
            Rule::Types => sized(kind_at(image.types, self.kind as usize)),
        }
    }
}

impl Ruled for Function {
    ghost keeps = { function_keeps };

    fn passes(self, ruling: &Ruling) -> bool {
        let Ruling { rule, image } = *ruling;
        match rule {
            Rule::Names => {
                self.first as usize + self.count as usize <= image.code.len()
                    && self.first_local as usize + self.locals as usize <= image.locals.len()
            }
            Rule::Types => true,
        }
    }
}

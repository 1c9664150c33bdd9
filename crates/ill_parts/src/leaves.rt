//! Leaves as parts.
ghost use Rattle.std.specs.Prelude.{◌≡◌};
ghost use Rattle.ber_leaf.specs.Profile.{profile_two};
ghost use Rattle.ill_schema.specs.Fits.{Fits};
ghost use Rattle.ill_schema.specs.Value.{content_of};
ghost use Rattle.ill_tables.specs.declared.node.NodeId.TheVariants.{Integer};
ghost use Rattle.ill_parts.specs.Shape.{number_content};

use crate::part::Part;
use ber_leaf::{DateText, IllString, PrintableText, TimeText};
use ill_schema::Value;
use std::alloc::{AllocError, Global};

#[tactic(auto, unfolding(crate::specs::Shape::Is))]
impl Part for bool {
    ghost use Rattle.ill_tables.specs.declared.node.NodeId.TheVariants.{Boolean};
    ghost use Rattle.ill_parts.specs.Shape.{Is, flag_content};

    ghost content = { flag_content };

    ghost accepts = { Is Boolean };

    fn to_value(&self, _: Global) -> Result<Value, AllocError> {
        Ok(Value::Flag(*self))
    }

    fn read(_: Global, value: &Value) -> Result<Self, AllocError> {
        match value {
            Value::Flag(flag) => Ok(*flag),
            _ => unreachable!(),
        }
    }
}

#[tactic(auto, unfolding(crate::specs::Shape::Is))]
impl Part for i64 {
    ghost use Rattle.ill_tables.specs.declared.node.NodeId.TheVariants.{Integer};
    ghost use Rattle.ill_parts.specs.Shape.{Is, number_content};

    ghost content = { number_content };

    ghost accepts = { Is Integer };

    fn to_value(&self, _: Global) -> Result<Value, AllocError> {
        Ok(number_value(*self))
    }

    fn read(_: Global, value: &Value) -> Result<Self, AllocError> {
        match value {
            Value::Whole(number) => Ok(*number),
            _ => unreachable!(),
        }
    }
}

#[tactic(auto, unfolding(crate::specs::Shape::Is))]
impl Part for DateText {
    ghost use Rattle.ill_tables.specs.declared.node.NodeId.TheVariants.{IsoDate};
    ghost use Rattle.ill_parts.specs.Shape.{Is, date_content};

    ghost content = { date_content };

    ghost accepts = { Is IsoDate };

    fn to_value(&self, alloc: Global) -> Result<Value, AllocError> {
        // This shows the proof that the octets are a content.
        self.octets();
        Ok(Value::Date(self.copy(alloc)?))
    }

    fn read(alloc: Global, value: &Value) -> Result<Self, AllocError> {
        match value {
            Value::Date(text) => text.copy(alloc),
            _ => unreachable!(),
        }
    }
}

#[tactic(auto, unfolding(crate::specs::Shape::Is))]
impl Part for TimeText {
    ghost use Rattle.ill_tables.specs.declared.node.NodeId.TheVariants.{IsoTime};
    ghost use Rattle.ill_parts.specs.Shape.{Is, time_content};

    ghost content = { time_content };

    ghost accepts = { Is IsoTime };

    fn to_value(&self, alloc: Global) -> Result<Value, AllocError> {
        // This shows the proof that the octets are a content.
        self.octets();
        Ok(Value::Time(self.copy(alloc)?))
    }

    fn read(alloc: Global, value: &Value) -> Result<Self, AllocError> {
        match value {
            Value::Time(text) => text.copy(alloc),
            _ => unreachable!(),
        }
    }
}

#[tactic(auto, unfolding(crate::specs::Shape::Is))]
impl Part for PrintableText {
    ghost use Rattle.ill_tables.specs.declared.node.NodeId.TheVariants.{PrintableString};
    ghost use Rattle.ill_parts.specs.Shape.{Is, printable_content};

    ghost content = { printable_content };

    ghost accepts = { Is PrintableString };

    fn to_value(&self, alloc: Global) -> Result<Value, AllocError> {
        // This shows the proof that the octets are a content.
        self.octets();
        Ok(Value::Print(self.copy(alloc)?))
    }

    fn read(alloc: Global, value: &Value) -> Result<Self, AllocError> {
        match value {
            Value::Print(text) => text.copy(alloc),
            _ => unreachable!(),
        }
    }
}

#[tactic(auto, unfolding(crate::specs::Shape::Is))]
impl Part for IllString {
    ghost use Rattle.ill_tables.specs.declared.node.NodeId.TheVariants.{IllString as StringNode};
    ghost use Rattle.ill_parts.specs.Shape.{Is, string_content};

    ghost content = { string_content };

    ghost accepts = { Is StringNode };

    fn to_value(&self, alloc: Global) -> Result<Value, AllocError> {
        // This shows the proof that the octets are a content.
        self.octets();
        Ok(Value::Str(self.copy(alloc)?))
    }

    fn read(alloc: Global, value: &Value) -> Result<Self, AllocError> {
        match value {
            Value::Str(text) => text.copy(alloc),
            _ => unreachable!(),
        }
    }
}

/// The value of a number, whose 64 bits the proof knows here.
fn number_value(number: i64) -> Value
    ensures value { content_of result ≡ number_content number }
    ensures fits { Fits profile_two (content_of result) Integer }
{
    Value::Whole(number)
}

//! Lists of parts.
ghost use Rattle.ill_parts.specs.Shape.{IsListOf, listed};

use crate::part::Part;
use ill_schema::Value;
use std::alloc::{AllocError, Global};

#[tactic(auto, unfolding(crate::specs::Shape::IsListOf, crate::specs::Shape::list_of))]
impl<P: Part> Part for Vec<P> {
    ghost content = { listed P.content };

    ghost accepts = { IsListOf P.accepts };

    fn to_value(&self, alloc: Global) -> Result<Value, AllocError> {
        let mut items = Vec::with_capacity(alloc, self.len())?;
        for part in self {
            items.push(part.to_value(alloc)?)?;
        }
        Ok(Value::List(items))
    }

    fn read(alloc: Global, value: &Value) -> Result<Self, AllocError> {
        match value {
            Value::List(items) => {
                let mut parts = Vec::with_capacity(alloc, items.len())?;
                for item in items {
                    parts.push(P::read(alloc, item)?)?;
                }
                Ok(parts)
            }
            _ => unreachable!(),
        }
    }
}

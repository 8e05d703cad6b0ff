use crate::fault::Fault;
use crate::names::Space;
use crate::reading::Reading;
use smith_types::{
    ArrayType, CompositeInnerType, CompositeType, FieldType, FuncType, Items, StorageType,
    StructType, SubType, ValType,
};

impl Reading<'_> {
    // Reads a storage type (Composite Types).
    fn storage_type(&mut self) -> Result<StorageType, Fault> {
        if self.cursor.take_word(b"i8") {
            return Ok(StorageType::I8);
        }
        if self.cursor.take_word(b"i16") {
            return Ok(StorageType::I16);
        }
        Ok(StorageType::Val(self.val_type()?))
    }

    // Reads the type of a field, with its mutability (Composite Types).
    fn field_type(&mut self) -> Result<FieldType, Fault> {
        let mutable = self.cursor.try_open(b"mut");
        let element_type = self.storage_type()?;
        if mutable {
            self.cursor.close()?;
        }
        Ok(FieldType {
            element_type,
            mutable,
        })
    }

    // Appends to `values` the value types in parentheses after a keyword: one with an identifier,
    // or any number (Function Types). The keyword is read already.
    fn append_values(&mut self, values: &mut Items<ValType>) -> Result<(), Fault> {
        if self.cursor.identifier().is_some() {
            values.push(self.val_type()?)?;
            return self.cursor.close();
        }
        for _ in 0..self.cursor.left() {
            if self.cursor.is_closing() {
                break;
            }
            values.push(self.val_type()?)?;
        }
        self.cursor.close()
    }

    // Appends to `fields` the fields in parentheses after a keyword, which is read already
    // (Composite Types).
    fn append_fields(&mut self, fields: &mut Items<FieldType>) -> Result<(), Fault> {
        if self.cursor.identifier().is_some() {
            fields.push(self.field_type()?)?;
            return self.cursor.close();
        }
        for _ in 0..self.cursor.left() {
            if self.cursor.is_closing() {
                break;
            }
            fields.push(self.field_type()?)?;
        }
        self.cursor.close()
    }

    // Reads the value types in all parentheses with the keyword `keyword`.
    fn values(&mut self, keyword: &[u8]) -> Result<Items<ValType>, Fault> {
        let mut values = Items::new(self.alloc);
        for _ in 0..self.cursor.left() {
            if !self.cursor.try_open(keyword) {
                break;
            }
            self.append_values(&mut values)?;
        }
        Ok(values)
    }

    /// Reads parameters and results, if there are any (Function Types).
    pub(crate) fn signature(&mut self) -> Result<FuncType, Fault> {
        let params = self.values(b"param")?;
        let results = self.values(b"result")?;
        Ok(FuncType { params, results })
    }

    // Reads the fields of a struct type, whose keyword is read already.
    fn struct_type(&mut self) -> Result<StructType, Fault> {
        let mut fields = Items::new(self.alloc);
        for _ in 0..self.cursor.left() {
            if !self.cursor.try_open(b"field") {
                break;
            }
            self.append_fields(&mut fields)?;
        }
        Ok(StructType { fields })
    }

    // Reads a composite type without its sharedness (Composite Types).
    fn inner_type(&mut self) -> Result<CompositeInnerType, Fault> {
        let inner = if self.cursor.try_open(b"array") {
            CompositeInnerType::Array(ArrayType(self.field_type()?))
        } else if self.cursor.try_open(b"struct") {
            CompositeInnerType::Struct(self.struct_type()?)
        } else {
            self.cursor.open(b"func")?;
            CompositeInnerType::Func(self.signature()?)
        };
        self.cursor.close()?;
        Ok(inner)
    }

    // Reads a composite type (Composite Types); a shared one as the shared-everything-threads proposal
    // writes it.
    fn composite_type(&mut self) -> Result<CompositeType, Fault> {
        let shared = self.cursor.try_open(b"shared");
        let inner = self.inner_type()?;
        if shared {
            self.cursor.close()?;
        }
        Ok(CompositeType { inner, shared })
    }

    // Reads a sub type (Recursive Types).
    fn sub_type(&mut self) -> Result<SubType, Fault> {
        if !self.cursor.try_open(b"sub") {
            let composite_type = self.composite_type()?;
            return Ok(SubType {
                is_final: true,
                supertype: None,
                composite_type,
            });
        }
        let is_final = self.cursor.take_word(b"final");
        let supertype = if self.is_index() {
            Some(self.index(Space::Type)?)
        } else {
            None
        };
        let composite_type = self.composite_type()?;
        self.cursor.close()?;
        Ok(SubType {
            is_final,
            supertype,
            composite_type,
        })
    }

    // Reads a type after its keyword, and appends it to `group`.
    fn append_type(&mut self, group: &mut Items<SubType>) -> Result<(), Fault> {
        let _ = self.item(Space::Type)?;
        group.push(self.sub_type()?)?;
        self.cursor.close()
    }

    /// Reads a group of one type after its keyword (Recursive Types).
    pub(crate) fn single_type(&mut self) -> Result<(), Fault> {
        let mut group = Items::new(self.alloc);
        self.append_type(&mut group)?;
        self.shape.groups.push(group)?;
        Ok(())
    }

    /// Reads a recursive group after its keyword (Recursive Types).
    pub(crate) fn recursive_group(&mut self) -> Result<(), Fault> {
        let mut group = Items::new(self.alloc);
        for _ in 0..self.cursor.left() {
            if !self.cursor.try_open(b"type") {
                break;
            }
            self.append_type(&mut group)?;
        }
        self.cursor.close()?;
        self.shape.groups.push(group)?;
        Ok(())
    }
}

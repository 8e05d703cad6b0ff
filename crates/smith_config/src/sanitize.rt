ghost use Rattle.std.specs.Prelude.{◌≡◌, None};
ghost use Rattle.smith_config.specs.Sanitized.{sanitized, IsSanitized, IsLowered};

use crate::Config;

impl Config {
    /// Resolves contradictions between fields. Turns off each field that requires a field that is
    /// off, lowers `max_tables` to 1 without reference types, and clears `available_imports` and
    /// `exports` if there is a module shape.
    pub fn sanitize(&mut self)
        ensures exact { self.new ≡ sanitized self.old }
        ensures sound { IsSanitized self.new }
        ensures lowered { IsLowered self.old self.new }
        ensures once { sanitized self.new ≡ self.new }
        ensures kept { IsSanitized self.old → self.new ≡ self.old }
    {
        self.lower();
    }

    // Sets each field to its sanitised value.
    fn lower(&mut self)
        ensures { self.new ≡ sanitized self.old }
    {
        if !self.reference_types_enabled {
            self.max_tables = self.max_tables.min(1);
            self.gc_enabled = false;
        }
        if !self.gc_enabled {
            self.shared_everything_threads_enabled = false;
            self.custom_descriptors_enabled = false;
            self.multibyte_array_access_enabled = false;
            self.non_nullable_enabled = false;
        }
        if !self.simd_enabled {
            self.relaxed_simd_enabled = false;
        }
        if !self.threads_enabled {
            self.shared_everything_threads_enabled = false;
            self.acquire_release_atomics_enabled = false;
        }
        if self.module_shape.is_some() {
            clear(&mut self.available_imports);
            clear(&mut self.exports);
        }
    }
}

// Leaves no value in `slot`.
fn clear<T: Drop>(slot: &mut Option<T>)
    ensures { slot.new ≡ None }
{
    *slot = None;
}

/// What tokens read as.
#[derive(Drop)]
pub enum Reading<T> {
    /// They are none of the forms.
    NoForm,
    /// They are a form as far as they are read, and an expression in it is nested too deeply.
    TooDeep,
    Form(T),
}
